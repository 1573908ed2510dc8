//! Whether points lie on the sides of a triangle whose corners are among them.
//!
//! Two corners are the first and the last from left to right; the third is that farthest from the line between them.

ghost use Rattle.std.specs.Prelude.{◌≡◌, ◌⊎◌, ◌<◌, ◌↔◌, ◌<ℤ◌, ◌≤ℤ◌, pos, true, length, All, Contains, IsTrue};
ghost use Rattle.pg_plane.specs.Geometry.{area};
ghost use Rattle.pg_plane.specs.Range.{IsInRange};
ghost use Rattle.plane_drawings.specs.PlaneSweepLines.{IsBefore};
ghost use Rattle.drawings.specs.Corners.{IsOnTriangle, AreCorners, HasCorners};

use pg_plane::{Point, area2, on_segment};

// Says whether `p` is left of `q`, or straight below it.
fn is_before(p: Point, q: Point) -> bool
    ensures { IsTrue result ↔ IsBefore p q }
{
    p.x < q.x || (p.x == q.x && p.y < q.y)
}

// Returns the one of `p` and `q` that comes first from left to right, and then upwards.
fn earlier(p: Point, q: Point) -> Point
    ensures one { (result ≡ p) ⊎ (result ≡ q) }
    ensures before_p { ¬ IsBefore p result }
    ensures before_q { (r : Point) → ¬ IsBefore r q → ¬ IsBefore r result }
{
    if is_before(p, q) { p } else { q }
}

// Returns the one of `p` and `q` that comes last from left to right, and then upwards.
fn later(p: Point, q: Point) -> Point
    ensures one { (result ≡ p) ⊎ (result ≡ q) }
    ensures after_p { ¬ IsBefore result p }
    ensures after_q { (r : Point) → ¬ IsBefore q r → ¬ IsBefore result r }
{
    if is_before(q, p) { p } else { q }
}

// Returns the first and the last of `points` from left to right, and then upwards.
fn ends_of(points: &[Point]) -> (Point, Point)
    requires { 0 < length points.now }
    ensures on_first { Contains points.now result.0 }
    ensures on_last { Contains points.now result.1 }
    ensures first { (p : Point) → Contains points.now p → ¬ IsBefore p result.0 }
    ensures last { (p : Point) → Contains points.now p → ¬ IsBefore result.1 p }
{
    let mut first = points[0];
    let mut last = points[0];
    for p in points {
        first = earlier(*p, first);
        last = later(*p, last);
    }
    (first, last)
}

// Returns which of `p` and `q` lies farther to the left of the line from `a` to `b`.
fn farther(a: Point, b: Point, p: Point, q: Point) -> Point
    requires a { IsInRange a }
    requires b { IsInRange b }
    requires p { IsInRange p }
    requires q { IsInRange q }
    ensures one { (result ≡ p) ⊎ (result ≡ q) }
    ensures than_p { area a b p ≤ℤ area a b result }
    ensures than_q { area a b q ≤ℤ area a b result }
{
    if area2(a, b, q) < area2(a, b, p) {
        p
    } else {
        q
    }
}

// Returns the one of `points` that lies farthest to the left of the line from `a` to `b`.
fn farthest(points: &[Point], a: Point, b: Point) -> Point
    requires some { 0 < length points.now }
    requires in_range { All IsInRange points.now }
    requires a { IsInRange a }
    requires b { IsInRange b }
    ensures on { Contains points.now result }
    ensures far { (p : Point) → Contains points.now p → area a b p ≤ℤ area a b result }
{
    let mut best = points[0];
    for p in points {
        best = farther(a, b, *p, best);
    }
    best
}

// Three points within the range of coordinates.
#[derive(Clone, Copy)]
struct Triangle {
    a: Point,
    b: Point,
    c: Point,
    ghost first: { IsInRange a },
    ghost second: { IsInRange b },
    ghost third: { IsInRange c },
}

impl Triangle {
    // Says whether `p` lies on one of the three segments between the corners.
    fn has_on_sides(&self, p: Point) -> bool
        requires { IsInRange p }
        ensures { IsTrue result ↔ IsOnTriangle p self.now.a self.now.b self.now.c }
    {
        on_segment(p, self.a, self.b)
            || on_segment(p, self.b, self.c)
            || on_segment(p, self.c, self.a)
    }

    // Says whether the third corner lies to the left of the way from the first to the second.
    fn is_left(&self) -> bool
        ensures { IsTrue result ↔ (pos 0 <ℤ area self.now.a self.now.b self.now.c) }
    {
        0 < area2(self.a, self.b, self.c)
    }
}

// Says whether `points` lie on the sides of a triangle with corners `a` and `b`. Its third corner is the point farthest
// to the left of the line from `a` to `b`.
fn has_third(points: &[Point], a: Point, b: Point) -> bool
    requires in_range { All IsInRange points.now }
    requires a { Contains points.now a }
    requires b { Contains points.now b }
    ensures yes { result ≡ true → HasCorners points.now }
    ensures no { (c : Point) → AreCorners points.now a b c → pos 0 <ℤ area a b c → result ≡ true }
{
    let far = farthest(points, a, b);
    let triangle = Triangle { a, b, c: far };
    if !triangle.is_left() {
        return false;
    }
    for p in points {
        if !triangle.has_on_sides(*p) {
            return false;
        }
    }
    true
}

/// Says whether three of `points` have an area other than 0, and each point is on a segment between two of these.
///
/// No coordinate is beyond 2^20 in size. The time is linear in the points, and it takes no memory.
pub fn has_corners(points: &[Point]) -> bool
    requires { All IsInRange points.now }
    ensures { IsTrue result ↔ HasCorners points.now }
{
    if points.is_empty() {
        return false;
    }
    let (a, b) = ends_of(points);
    if has_third(points, a, b) {
        true
    } else {
        has_third(points, b, a)
    }
}
