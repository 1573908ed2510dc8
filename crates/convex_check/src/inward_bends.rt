//! Inner faces that bend inwards: the first three consecutive vertices of a face that turn to the right.
ghost use Rattle.std.specs.Prelude.{◌≡◌, ◌+◌, ◌<◌, ◌↔◌, ◌<ℤ◌, pos, ℕ, List, length, slice_index, IsTrue, Some, MatchOption};
ghost use Rattle.map_theory.specs.Maps.{HasDart, follows};
ghost use Rattle.half_edges.specs.Map.{IsLive, dart_at, first_dart};
ghost use Rattle.euler_faces.specs.FaceWalks.{AreFaces};
ghost use Rattle.pg_plane.specs.Geometry.{area};
ghost use Rattle.plane_drawings.specs.Drawing.{place};
ghost use Rattle.vertex_rounds.specs.Least.{IsLeast, IsLeastPair, IsLeastTriple};
ghost use Rattle.vertex_rounds.specs.Rounds.{dart_of, HoldsAt};
ghost use Rattle.drawings.specs.Convex.{IsBent};
ghost use Rattle.convex_check.specs.Verdicts.{IsBentFrom, NoneBent};

use crate::drawing::BasedDrawing;
use euler_faces::Faces;
use half_edges::{DartId, VertexId};
use pg_plane::{Point, Points, area2};
use vertex_rounds::first_dart;

// Returns the point of `v`.
pub(crate) fn place_at(points: &Points, v: VertexId) -> Point
    requires { v.0 < length points.now }
    ensures { result ≡ place points.now v.0 }
{
    points.get(v.0 as usize)
}

impl BasedDrawing<'_> {
    // Says whether the path from `a` over `b` to `c` turns to the right at `b`.
    fn turns_right(&self, a: VertexId, b: VertexId, c: VertexId) -> bool
        requires a { a.0 < length self.now.map.now.lists }
        requires b { b.0 < length self.now.map.now.lists }
        requires c { c.0 < length self.now.map.now.lists }
        ensures { IsTrue result ↔ (area (place self.now.points.now a.0) (place self.now.points.now b.0) (place self.now.points.now c.0) <ℤ pos 0) }
    {
        let points = self.points;
        let double = area2(
            place_at(points, a),
            place_at(points, b),
            place_at(points, c),
        );
        double < 0
    }

    // Says whether the face of dart `d` is another than the base's, and turns to the right at the head of `d`.
    fn is_bent(&self, faces: &Faces, d: DartId) -> bool
        requires faces { AreFaces self.now.map.now faces.now }
        requires live { IsLive self.now.map.now d.0 }
        ensures { IsTrue result ↔ HoldsAt self.now.map.now (IsBentFrom self.now.map.now self.now.points.now self.now.base.0) d.0 }
    {
        let map = self.map;
        let outer = faces.of_dart(self.base);
        let face = faces.of_dart(d);
        let a = map.tail(d);
        let b = map.head(d);
        let c = map.head(map.face_step(d));
        face.0 != outer.0 && self.turns_right(a, b, c)
    }

    // Returns the least three consecutive vertices where a face other than the base's turns to the right, or `None`.
    pub(crate) fn first_bent(&self, faces: &Faces) -> Option<(VertexId, VertexId, VertexId)>
        requires faces { AreFaces self.now.map.now faces.now }
        ensures { MatchOption result (NoneBent self.now.map.now.lists self.now.points.now (dart_of self.now.map.now self.now.base.0))
            (λ p. IsLeastTriple (IsBent self.now.map.now.lists self.now.points.now (dart_of self.now.map.now self.now.base.0)) p.0.0 p.1.0 p.2.0) }
    {
        let drawing = *self;
        match first_dart(drawing.map, |d| drawing.is_bent(faces, d)) {
            Some((a, b)) => match drawing.map.dart_of(a, b) {
                Some(d) => Some((a, b, drawing.map.head(drawing.map.face_step(d)))),
                None => None,
            },
            None => None,
        }
    }
}
