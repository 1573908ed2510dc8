//! The check of a triangulation's drawing by the angles between consecutive list entries, without a map of the lists.
ghost use Rattle.std.specs.Prelude.{◌<◌, length};
ghost use Rattle.std.specs.Bool.{OnTrue};
ghost use Rattle.half_edges.specs.Map.{first_dart};
ghost use Rattle.draw_check.specs.Corners.{IsCornerWell, IsRoundWell};
ghost use Rattle.plane_drawings.specs.Drawing.{HasPlaces};
ghost use Rattle.drawings.specs.OuterFaces.{HasOuterFace};
ghost use Rattle.draw_check.specs.Verdicts.{IsVerdict};
ghost use Rattle.draw_check.specs.declared.verdict.Verdict.TheVariants.{Yes as NoFault};
ghost use Rattle.plane_laws.specs.Triangulations.{IsTriangulation};

use crate::drawing::Placed;
use crate::faces_yes_for_fewer;
use crate::vertex_points::{is_in_grid, place_at};
use half_edges::VertexId;
use map_lists::Rotations;
use pg_plane::{Point, Points};

/// Lists, and a point for each of them, within the range of coordinates.
#[derive(Clone, Copy)]
struct Corners<'a> {
    lists: &'a Rotations,
    points: &'a Points,
    ghost few: { length lists.now < 4096 },
    ghost places: { HasPlaces lists.now points.now },
}

impl Corners<'_> {
    // Says whether the triangle `a`, `b`, `c` is drawn counterclockwise, or clockwise where `is_outer`. It is true
    // untested where `a` is not its least vertex, and else false where `b` or `c` is no vertex. False promises nothing.
    #[inline(always)]
    fn is_well(&self, is_outer: bool, a: u16, b: u16, c: u16) -> bool
        requires { a < length self.now.points.now }
        ensures { OnTrue result (IsCornerWell self.now.points.now is_outer a b c) }
    {
        if b <= a || c <= a {
            return true;
        }
        let n = self.points.len();
        let placed = Placed {
            points: self.points,
        };
        (b as usize) < n
            && (c as usize) < n
            && placed.turns_well(is_outer, VertexId(a), VertexId(b), VertexId(c))
    }

    // Says whether each triangle of `v`, an entry of its list and the entry before, cyclically, passes `is_well`. The
    // first entry of vertex 0 stands for the outer face. It is false for an empty list; false promises nothing.
    fn is_round_well(&self, v: u16) -> bool
        requires { v < length self.now.lists.now }
        ensures { OnTrue result (IsRoundWell self.now.lists.now self.now.points.now v) }
    {
        let list = self.lists.list(v as usize);
        if list.is_empty() || !self.is_well(v == 0, v, list[0], list[list.len() - 1]) {
            return false;
        }
        for k in 1..list.len() {
            if !self.is_well(false, v, list[k], list[k - 1]) {
                return false;
            }
        }
        true
    }
}

/// Says whether a test of the corners shows that the drawing of `lists` at `points` has no fault, in the grid up to
/// `corner`. There is one point for each list, and no coordinate is beyond 2^20 in size. Where it is true and the lists
/// are a triangulation, `check_points` answers `Yes`, and so does `check_outer` for the first vertex's first dart.
/// False, or true for other lists, promises nothing. It takes no memory, and linear time.
pub fn is_drawn_well(lists: &Rotations, points: &Points, corner: Point) -> bool
    requires places { HasPlaces lists.now points.now }
    ensures { OnTrue result (IsTriangulation lists.now → IsVerdict lists.now points.now corner.x corner.y NoFault
        × HasOuterFace lists.now points.now (first_dart lists.now 0)) }
{
    faces_yes_for_fewer();
    let corners = Corners { lists, points };
    for v in 0..lists.len() {
        let v = v as u16;
        if !is_in_grid(place_at(points, VertexId(v)), corner) || !corners.is_round_well(v) {
            return false;
        }
    }
    true
}
