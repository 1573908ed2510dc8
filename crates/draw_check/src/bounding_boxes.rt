//! Bounding boxes, and tests that a segment misses a box or the segments from a point into a box.
ghost use Rattle.std.specs.Prelude.{◌≡◌, ◌⊎◌, if◌then◌else◌, ◌↔◌, ◌<ℤ◌, ◌≤ℤ◌, pos, IsTrue};
ghost use Rattle.std.specs.Bool.{OnTrue};
ghost use Rattle.pg_plane.specs.Geometry.{area, IsOnSegment};
ghost use Rattle.pg_plane.specs.Range.{IsInRange, IsWithin};
ghost use Rattle.draw_check.specs.Spans.{IsIn, IsBoxInRange, IsApart, IsLeftOf, IsStrictlyLeftOf, MissesStar, MissesFan};

use crate::vertex_points::PlacedPoint;
use pg_plane::{MOST_COORDINATE, Point, area2};

// A bounding box. It has no points where its right side is to the left of its left one.
#[derive(Clone, Copy)]
pub(crate) struct BoundingBox {
    pub(crate) left: i32,
    pub(crate) right: i32,
    pub(crate) bottom: i32,
    pub(crate) top: i32,
}

// A bounding box within the range of coordinates.
#[derive(Clone, Copy)]
pub(crate) struct Extent {
    pub(crate) span: BoundingBox,
    ghost range: { IsBoxInRange span },
}

// A box without points.
pub(crate) const NO_SPAN: BoundingBox = BoundingBox {
    left: MOST_COORDINATE,
    right: -MOST_COORDINATE,
    bottom: MOST_COORDINATE,
    top: -MOST_COORDINATE,
};

// Returns `span` extended to hold `p` too.
pub(crate) fn widened(span: BoundingBox, p: PlacedPoint) -> BoundingBox
    requires { IsBoxInRange span }
    ensures range { IsBoxInRange result }
    ensures point { IsIn result p.point }
    ensures more { (u : Point) → IsIn span u → IsIn result u }
{
    BoundingBox {
        left: span.left.min(p.point.x),
        right: span.right.max(p.point.x),
        bottom: span.bottom.min(p.point.y),
        top: span.top.max(p.point.y),
    }
}

// Says whether `s` and `t` are both less than `bound`.
fn are_less(s: i32, t: i32, bound: i32) -> bool
    ensures { IsTrue result ↔ ((s <ℤ bound) × (t <ℤ bound)) }
{
    s < bound && t < bound
}

// Says whether `s` and `t` are both greater than `bound`.
fn are_greater(s: i32, t: i32, bound: i32) -> bool
    ensures { IsTrue result ↔ ((bound <ℤ s) × (bound <ℤ t)) }
{
    bound < s && bound < t
}

// Says whether `p` and `q` both lie beyond one side of the box `span`. Only true is promised.
fn is_apart(span: BoundingBox, p: PlacedPoint, q: PlacedPoint) -> bool
    ensures { OnTrue result (IsApart span p.point q.point) }
{
    if are_less(p.point.x, q.point.x, span.left) {
        return true;
    }
    if are_greater(p.point.x, q.point.x, span.right) {
        return true;
    }
    if are_less(p.point.y, q.point.y, span.bottom) {
        return true;
    }
    if are_greater(p.point.y, q.point.y, span.top) {
        return true;
    }
    false
}

// Returns the bottom or the top of the box, whichever is farther to the right of the line from `p` to `q`.
fn far_level(extent: Extent, p: Point, q: Point) -> i32
    ensures range { IsWithin (pos 1048576) result }
    ensures far { (u : Point) → IsIn extent.span u → ((p.x ≤ℤ q.x) × (result ≤ℤ u.y)) ⊎ ((q.x ≤ℤ p.x) × (u.y ≤ℤ result)) }
{
    if p.x <= q.x {
        extent.span.bottom
    } else {
        extent.span.top
    }
}

// Returns the corner of the box that is farthest to the right of the line from `p` to `q`.
fn far_corner(extent: Extent, p: Point, q: Point) -> Point
    ensures range { IsInRange result }
    ensures least { (u : Point) → IsIn extent.span u → area p q result ≤ℤ area p q u }
{
    let level = far_level(extent, p, q);
    if p.y <= q.y {
        Point {
            x: extent.span.right,
            y: level,
        }
    } else {
        Point {
            x: extent.span.left,
            y: level,
        }
    }
}

// Says whether `z` is not negative.
pub(crate) fn is_not_negative(z: i64) -> bool
    ensures { IsTrue result ↔ (pos 0 ≤ℤ z) }
{
    0 <= z
}

// Says whether no point of the box is to the right of the line from `p` to `q`. Only true is promised.
pub(crate) fn is_left_of(extent: Extent, p: PlacedPoint, q: PlacedPoint) -> bool
    ensures { OnTrue result (IsLeftOf extent.span p.point q.point) }
{
    is_not_negative(area2(p.point, q.point, far_corner(extent, p.point, q.point)))
}

// Says whether neither the box nor `r` is to the right of the line from `p` to `q`. True shows that the segment from
// `p` to `q` crosses none from `r` to a point of the box; false shows nothing.
fn is_past(extent: Extent, r: PlacedPoint, p: PlacedPoint, q: PlacedPoint) -> bool
    ensures { OnTrue result (MissesStar extent.span r.point p.point q.point) }
{
    is_not_negative(area2(p.point, q.point, r.point)) && is_left_of(extent, p, q)
}

// Says whether a quick test shows that the segment from `p` to `q` crosses no segment from `r` to a point of the box
// `extent`. It passes where `p` and `q` are on one side of the box, seen from `r`, or the box and `r` on one side of
// the segment's line. False shows nothing.
pub(crate) fn misses_star(extent: Extent, r: PlacedPoint, p: PlacedPoint, q: PlacedPoint) -> bool
    ensures { OnTrue result (MissesStar extent.span r.point p.point q.point) }
{
    if is_apart(widened(extent.span, r), p, q) {
        return true;
    }
    if is_left_of(extent, r, p) && is_left_of(extent, r, q) {
        return true;
    }
    if is_left_of(extent, p, r) && is_left_of(extent, q, r) {
        return true;
    }
    if is_past(extent, r, p, q) {
        return true;
    }
    is_past(extent, r, q, p)
}

// Says whether all points of the box are strictly to the left of the line from `p` to `q`. Only true is promised.
fn is_strictly_left_of(extent: Extent, p: PlacedPoint, q: PlacedPoint) -> bool
    ensures { OnTrue result (IsStrictlyLeftOf extent.span p.point q.point) }
{
    0 < area2(p.point, q.point, far_corner(extent, p.point, q.point))
}

// Says whether a quick test shows that no point of the box lies on the segment from `p` to `q`. False shows nothing.
pub(crate) fn misses_segment(extent: Extent, p: PlacedPoint, q: PlacedPoint) -> bool
    ensures { OnTrue result ((u : Point) → IsIn extent.span u → ¬ IsOnSegment u p.point q.point) }
{
    if is_apart(extent.span, p, q) {
        return true;
    }
    if is_strictly_left_of(extent, p, q) {
        return true;
    }
    is_strictly_left_of(extent, q, p)
}

// Returns a corner of the box: on its right side where `right`, else its left; at its top where `top`, else its bottom.
fn corner(extent: Extent, right: bool, top: bool) -> PlacedPoint
    ensures x { result.point.x ≡ (if right then extent.span.right else extent.span.left) }
    ensures y { result.point.y ≡ (if top then extent.span.top else extent.span.bottom) }
{
    PlacedPoint {
        point: Point {
            x: if right {
                extent.span.right
            } else {
                extent.span.left
            },
            y: if top {
                extent.span.top
            } else {
                extent.span.bottom
            },
        },
    }
}

// Returns a box that holds all points of `span` and of `other`.
pub(crate) fn joined(span: BoundingBox, other: BoundingBox) -> BoundingBox
    requires span { IsBoxInRange span }
    requires other { IsBoxInRange other }
    ensures range { IsBoxInRange result }
    ensures first { (u : Point) → IsIn span u → IsIn result u }
    ensures second { (u : Point) → IsIn other u → IsIn result u }
{
    let extent = Extent { span: other };
    let wide = widened(span, corner(extent, false, false));
    widened(wide, corner(extent, true, true))
}

// Says whether the box `other` lies beyond one side of the box `span`. Only true is promised.
fn are_boxes_apart(span: BoundingBox, other: BoundingBox) -> bool
    ensures { OnTrue result ((p q : Point) → IsIn other p → IsIn other q → IsApart span p q) }
{
    if other.right < span.left {
        return true;
    }
    if span.right < other.left {
        return true;
    }
    if other.top < span.bottom {
        return true;
    }
    if span.top < other.bottom {
        return true;
    }
    false
}

// Says whether a quick test shows that no segment in `block` crosses one from `r` into the box `extent`, and no point
// of `block` lies on one. It passes where `r` sees all of `block` on one side of the box. False shows nothing.
pub(crate) fn misses_block(extent: Extent, r: PlacedPoint, block: Extent) -> bool
    ensures star { OnTrue result ((p q : Point) → IsIn block.span p → IsIn block.span q → MissesStar extent.span r.point p q) }
    ensures fan { OnTrue result ((p : Point) → IsIn block.span p → MissesFan extent.span r.point p) }
{
    if are_boxes_apart(widened(extent.span, r), block.span) {
        return true;
    }
    let low_left = corner(block, false, false);
    let low_right = corner(block, true, false);
    let high_left = corner(block, false, true);
    let high_right = corner(block, true, true);
    if is_strictly_left_of(extent, r, low_left)
        && is_strictly_left_of(extent, r, low_right)
        && is_strictly_left_of(extent, r, high_left)
        && is_strictly_left_of(extent, r, high_right)
    {
        return true;
    }
    if is_strictly_left_of(extent, low_left, r)
        && is_strictly_left_of(extent, low_right, r)
        && is_strictly_left_of(extent, high_left, r)
        && is_strictly_left_of(extent, high_right, r)
    {
        return true;
    }
    false
}
