//! A map with a point for each of its vertices, as the types that the checks read, and the turn at three points.
ghost use Rattle.std.specs.Prelude.{◌<◌, ◌↔◌, ℕ, length, IsTrue, MatchBool, pos, ◌<ℤ◌};
ghost use Rattle.pg_plane.specs.Geometry.{area};
ghost use Rattle.pg_plane.specs.Range.{IsInRange};
ghost use Rattle.plane_drawings.specs.Drawing.{place, HasPlaces};

use crate::vertex_points::place_at;
use half_edges::{HalfMap, VertexId};
use pg_plane::{Points, area2};

/// A map, and a point for each of its vertices, within the range of coordinates.
#[derive(Clone, Copy)]
pub(crate) struct PointDrawing<'a> {
    pub(crate) map: &'a HalfMap,
    pub(crate) points: &'a Points,
    ghost places: { HasPlaces map.now.lists points.now },
}

/// Points within the range of coordinates.
#[derive(Clone, Copy)]
pub(crate) struct Placed<'a> {
    pub(crate) points: &'a Points,
    ghost in_range: { (v : ℕ) → v < length points.now → IsInRange (place points.now v) },
}

impl Placed<'_> {
    // Says whether the path from `a` over `b` to `c` turns left, or right where the face is the outer one.
    #[inline(always)]
    pub(crate) fn turns_well(&self, is_outer: bool, a: VertexId, b: VertexId, c: VertexId) -> bool
        requires a { a.0 < length self.now.points.now }
        requires b { b.0 < length self.now.points.now }
        requires c { c.0 < length self.now.points.now }
        ensures { IsTrue result ↔ MatchBool is_outer (area (place self.now.points.now a.0) (place self.now.points.now b.0) (place self.now.points.now c.0) <ℤ pos 0)
            (pos 0 <ℤ area (place self.now.points.now a.0) (place self.now.points.now b.0) (place self.now.points.now c.0)) }
    {
        let double = area2(
            place_at(self.points, a),
            place_at(self.points, b),
            place_at(self.points, c),
        );
        if is_outer { double < 0 } else { 0 < double }
    }
}
