//! The check of a drawing of a triangulation by the orientation of its faces.
ghost use Rattle.std.specs.Prelude.{◌⊎◌, ◌≡◌, ◌+◌, ◌*◌, ◌<◌, ◌≤◌, ◌↔◌, IsTrue};
ghost use Rattle.map_theory.specs.Maps.{IsPlane, vertex_count, edge_count};
ghost use Rattle.map_theory.specs.Paths.{SameFace};
ghost use Rattle.half_edges.specs.Map.{IsLive, first_dart};
ghost use Rattle.plane_laws.specs.Triangulations.{IsTriangulation};
ghost use Rattle.plane_drawings.specs.Drawing.{HasPlaces};
ghost use Rattle.vertex_rounds.specs.Rounds.{HoldsAt, dart_of};
ghost use Rattle.draw_check.specs.FaceVerdicts.{IsWrongFrom, IsFaceVerdict};

use crate::FaceVerdict;
use crate::drawing::{Placed, PointDrawing};
use crate::vertex_points::corner_of;
use half_edges::{DartId, HalfMap};
use pg_plane::{GridFigure, Point, Points};
use vertex_rounds::first_dart;

// Says whether `d` is one of three darts.
fn is_one_of(d: DartId, one: DartId, two: DartId, three: DartId) -> bool
    ensures { IsTrue result ↔ ((d.0 ≡ one.0) ⊎ ((d.0 ≡ two.0) ⊎ (d.0 ≡ three.0))) }
{
    d.0 == one.0 || d.0 == two.0 || d.0 == three.0
}

/// Returns the least vertex outside the grid, or else the least face that is drawn with the wrong orientation, written
/// from its least vertex, or else `Yes`. The face left of `base` has to be clockwise, and each other one
/// counterclockwise.
///
/// `tri` is a triangulation: of genus zero, with at least three vertices and 3n - 6 edges. `base` is live, and the grid
/// goes from (0, 0) to `corner`. There is one point for each vertex, and no coordinate is beyond 2^20 in size. It takes
/// no memory, and linear time.
pub fn check_points_by_faces(
    tri: &HalfMap,
    base: DartId,
    points: &Points,
    corner: Point,
) -> FaceVerdict
    requires triangulation { IsTriangulation tri.now.lists }
    requires base { IsLive tri.now base.0 }
    requires places { HasPlaces tri.now.lists points.now }
    ensures { IsFaceVerdict tri.now.lists points.now corner.x corner.y (dart_of tri.now base.0) result }
{
    let drawing = PointDrawing { map: tri, points };
    if let Some(v) = drawing.first_outside(corner) {
        return FaceVerdict::OutOfGrid(v);
    }
    let framed = Framed { drawing, base };
    match first_dart(tri, |d| framed.is_wrong(d)) {
        Some((a, b)) => match tri.dart_of(a, b) {
            Some(d) => FaceVerdict::Wrong(a, b, tri.head(tri.face_step(d))),
            None => FaceVerdict::Yes,
        },
        None => FaceVerdict::Yes,
    }
}

/// Checks a figure as [`check_points_by_faces`] does its points, in its grid.
pub fn check_by_faces(tri: &HalfMap, base: DartId, fig: &GridFigure) -> FaceVerdict
    requires triangulation { IsTriangulation tri.now.lists }
    requires base { IsLive tri.now base.0 }
    requires places { HasPlaces tri.now.lists fig.now.points }
    ensures { IsFaceVerdict tri.now.lists fig.now.points fig.now.width fig.now.height (dart_of tri.now base.0) result }
{
    check_points_by_faces(tri, base, &fig.points, corner_of(fig))
}

/// A drawing of a triangulation, with a base dart, which has the outer face on its left.
#[derive(Clone, Copy)]
struct Framed<'a> {
    drawing: PointDrawing<'a>,
    base: DartId,
    ghost plane: { IsPlane drawing.map.now.lists },
    ghost some: { 3 ≤ vertex_count drawing.map.now.lists },
    ghost edges: { edge_count drawing.map.now.lists + 6 ≡ 3 * vertex_count drawing.map.now.lists },
    ghost live: { IsLive drawing.map.now base.0 },
}

impl Framed<'_> {
    // Says whether `d` lies on the face left of the base, which is a triangle.
    fn is_on_base(&self, d: DartId) -> bool
        requires { IsLive self.now.drawing.map.now d.0 }
        ensures { IsTrue result ↔ SameFace self.now.drawing.map.now.lists (dart_of self.now.drawing.map.now self.now.base.0) (dart_of self.now.drawing.map.now d.0) }
    {
        let map = self.drawing.map;
        let second = map.face_step(self.base);
        let third = map.face_step(second);
        is_one_of(d, self.base, second, third)
    }

    // Says whether `d` reports its face as wrong. It does so if the face is drawn with the wrong orientation and `d`
    // leaves its least vertex, so each face is reported once. The face left of the base is to be clockwise, and each
    // other one counterclockwise.
    fn is_wrong(&self, d: DartId) -> bool
        requires { IsLive self.now.drawing.map.now d.0 }
        ensures { IsTrue result ↔ HoldsAt self.now.drawing.map.now (IsWrongFrom self.now.drawing.map.now self.now.drawing.points.now self.now.base.0) d.0 }
    {
        let map = self.drawing.map;
        let placed = Placed {
            points: self.drawing.points,
        };
        let a = map.tail(d);
        let b = map.head(d);
        let c = map.head(map.face_step(d));
        if a.0 < b.0 && a.0 < c.0 {
            return !placed.turns_well(self.is_on_base(d), a, b, c);
        }
        false
    }
}
