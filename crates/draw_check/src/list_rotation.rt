//! Rotations: whether the directions from a vertex to its neighbours go clockwise once round in the order of its list.
ghost use Rattle.std.specs.Prelude.{◌≡◌, ◌+◌, ◌<◌, ◌↔◌, ◌||◌, IsTrue, Some, MatchOption};
ghost use Rattle.half_edges.specs.Map.{IsLive};
ghost use Rattle.pg_plane.specs.Geometry.{vector};
ghost use Rattle.pg_plane.specs.Range.{IsDirection};
ghost use Rattle.plane_drawings.specs.Drawing.{KeepsRotations};
ghost use Rattle.vertex_rounds.specs.Least.{IsLeast};
ghost use Rattle.vertex_rounds.specs.Rounds.{HoldsAt};
ghost use Rattle.draw_check.specs.Faults.{IsTurned};
ghost use Rattle.draw_check.specs.Loops.{Breaks};

use crate::drawing::PointDrawing;
use crate::vertex_points::PlacedPoint;
use half_edges::{DartId, VertexId};
use pg_plane::{Point, clock_before};
use vertex_rounds::turns_once;

// Returns the direction from point `a` to point `b`, as the difference of their coordinates.
fn direction(a: PlacedPoint, b: PlacedPoint) -> Point
    ensures vector { result ≡ vector a.point b.point }
    ensures range { IsDirection result }
{
    Point {
        x: b.point.x - a.point.x,
        y: b.point.y - a.point.y,
    }
}

impl PointDrawing<'_> {
    // Says whether the list of the tail of dart `d` breaks after `d`. It does where the direction to the next entry is
    // not strictly after that of `d`, clockwise from west.
    fn is_break(&self, d: DartId) -> bool
        requires live { IsLive self.now.map.now d.0 }
        ensures { IsTrue result ↔ HoldsAt self.now.map.now (Breaks self.now.map.now.lists self.now.points.now) d.0 }
    {
        let v = self.spot(self.map.tail(d));
        let u = self.spot(self.map.head(d));
        let w = self.spot(self.map.head(self.map.next(d)));
        !clock_before(direction(v, u), direction(v, w))
    }

    // Returns the least vertex whose neighbours do not stand round it in the order of its list, or `None`. Such a
    // vertex has at least two of them, and their directions do not go clockwise just once round.
    pub(crate) fn first_turned(&self) -> Option<VertexId>
        ensures { MatchOption result (KeepsRotations self.now.map.now.lists self.now.points.now)
            (λ v. IsLeast (IsTurned self.now.map.now.lists self.now.points.now) v.0) }
    {
        for v in 0..self.map.n() {
            if !turns_once(self.map, VertexId(v), |d| self.is_break(d)) {
                return Some(VertexId(v));
            }
        }
        None
    }
}
