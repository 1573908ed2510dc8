//! Wedges: the directions from one point that lie between those to two others, and segments beside them.
ghost use Rattle.std.specs.Prelude.{◌≡◌, ◌↔◌, ◌<◌, ◌<ℤ◌, ◌≤ℤ◌, ℕ, length, slice_index, pos, All, IfSome, IsTrue};
ghost use Rattle.std.specs.Bool.{OnTrue};
ghost use Rattle.pg_plane.specs.declared.grid_points.Point.{Point};
ghost use Rattle.pg_plane.specs.Geometry.{area, DoCross};
ghost use Rattle.plane_drawings.specs.Drawing.{place};
ghost use Rattle.draw_check.specs.Spans.{IsIn};
ghost use Rattle.draw_check.specs.Wedges.{IsInWedge, IsLeftOfBoth, IsRightOfBoth, IsWedgeOf};

use crate::bounding_boxes::{Extent, is_left_of, is_not_negative};
use crate::drawing::PointDrawing;
use crate::vertex_points::PlacedPoint;
use half_edges::VertexId;
use pg_plane::area2;

// The directions from `apex` between that to `right` and that to `left`, which is less than a half turn to the left of it.
#[derive(Clone, Copy)]
pub(crate) struct Wedge {
    pub(crate) apex: PlacedPoint,
    pub(crate) right: PlacedPoint,
    pub(crate) left: PlacedPoint,
    ghost turn: { pos 0 <ℤ area apex.point right.point left.point },
}

// Says whether `c` is not to the right of the way from `a` to `b`.
fn is_not_right(a: PlacedPoint, b: PlacedPoint, c: PlacedPoint) -> bool
    ensures { IsTrue result ↔ (pos 0 ≤ℤ area a.point b.point c.point) }
{
    is_not_negative(area2(a.point, b.point, c.point))
}

impl Wedge {
    // Says whether the direction to `u` lies between those to the sides, or is one of them.
    fn holds(self, u: PlacedPoint) -> bool
        ensures { IsTrue result ↔ IsInWedge self.apex.point self.right.point self.left.point u.point }
    {
        is_not_right(self.apex, self.right, u) && is_not_right(self.apex, u, self.left)
    }

    // Says whether `holds` is true of the points of all of `heads`, vertices of `drawing`.
    fn holds_all(self, drawing: &PointDrawing<'_>, heads: &[u16]) -> bool
        requires { All (λ u. u < length drawing.now.points.now) heads.now }
        ensures { OnTrue result ((i : ℕ) → i < length heads.now → IsInWedge self.apex.point self.right.point self.left.point (place drawing.now.points.now (slice_index heads.now i))) }
    {
        for i in 0..heads.len() {
            if !self.holds(drawing.spot(VertexId(heads[i]))) {
                return false;
            }
        }
        true
    }

    // Says whether `p` is to the right of neither side, seen from the apex.
    fn is_left(self, p: PlacedPoint) -> bool
        ensures { IsTrue result ↔ IsLeftOfBoth self.apex.point self.right.point self.left.point p.point }
    {
        is_not_right(self.apex, self.right, p) && is_not_right(self.apex, self.left, p)
    }

    // Says whether `p` is to the left of neither side, seen from the apex.
    fn is_right(self, p: PlacedPoint) -> bool
        ensures { IsTrue result ↔ IsRightOfBoth self.apex.point self.right.point self.left.point p.point }
    {
        is_not_right(self.right, self.apex, p) && is_not_right(self.left, self.apex, p)
    }

    // Says whether `p` and `q` are on one side of the wedge, seen from its apex. True shows that the segment from `p` to
    // `q` crosses none from the apex to a point of the wedge; false shows nothing.
    pub(crate) fn is_passed(self, p: PlacedPoint, q: PlacedPoint) -> bool
        ensures { OnTrue result ((u : Point) → IsInWedge self.apex.point self.right.point self.left.point u → ¬ DoCross p.point q.point self.apex.point u) }
    {
        if self.is_left(p) && self.is_left(q) {
            return true;
        }
        if self.is_right(p) && self.is_right(q) {
            return true;
        }
        false
    }

    // Says whether all of `block` is on one side of the wedge, seen from its apex. True shows that no segment in the
    // block crosses one from the apex to a point of the wedge; false shows nothing.
    pub(crate) fn is_passed_by(self, block: Extent) -> bool
        ensures { OnTrue result ((p q u : Point) → IsIn block.span p → IsIn block.span q → IsInWedge self.apex.point self.right.point self.left.point u → ¬ DoCross p q self.apex.point u) }
    {
        if is_left_of(block, self.apex, self.right) && is_left_of(block, self.apex, self.left) {
            return true;
        }
        if is_left_of(block, self.right, self.apex) && is_left_of(block, self.left, self.apex) {
            return true;
        }
        false
    }
}

impl PointDrawing<'_> {
    // Returns the wedge at `v` between the last and the first of `heads`, or `None` unless it has all of them.
    pub(crate) fn wedge_of(&self, v: VertexId, heads: &[u16]) -> Option<Wedge>
        requires vertex { v.0 < length self.now.points.now }
        requires heads { All (λ u. u < length self.now.points.now) heads.now }
        ensures { IfSome result (λ w. IsWedgeOf self.now.points.now v.0 heads.now w.apex.point w.right.point w.left.point) }
    {
        if heads.len() == 0 {
            return None;
        }
        let apex = self.spot(v);
        let right = self.spot(VertexId(heads[heads.len() - 1]));
        let left = self.spot(VertexId(heads[0]));
        if area2(apex.point, right.point, left.point) <= 0 {
            return None;
        }
        let wedge = Wedge { apex, right, left };
        if wedge.holds_all(self, heads) {
            return Some(wedge);
        }
        None
    }
}
