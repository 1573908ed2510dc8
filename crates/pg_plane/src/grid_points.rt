//! Points of the grid, and the predicates of drawings: twice the area of a triangle, point on segment, crossing
//! segments, clockwise order.
ghost use Rattle.std.specs.Prelude.{◌≡◌, ◌↔◌, ◌-ℤ◌, ◌*ℤ◌, pos, IsTrue};
ghost use Rattle.pg_plane.specs.Geometry.{area, cross, IsBetween, IsOnSegment, AreOpposite, DoCross, IsFirstHalf, IsClockBefore};
ghost use Rattle.pg_plane.specs.Range.{IsWithin, IsInRange, IsDirection};

/// The greatest absolute value of a coordinate: 2^20.
pub const MOST_COORDINATE: i32 = 1_048_576;

/// A point of the grid, or a direction. Coordinates are from -2^20 to 2^20, those of a direction from
/// -2^21 to 2^21, where a call requires it.
#[derive(Clone, Copy, PartialEq, Eq)]
pub struct Point {
    /// How far to the right.
    pub x: i32,
    /// How far up.
    pub y: i32,
}

// Returns `t` less `s`, for two coordinates.
fn difference(s: i32, t: i32) -> i64
    requires s { IsWithin (pos 1048576) s }
    requires t { IsWithin (pos 1048576) t }
    ensures value { result ≡ t -ℤ s }
    ensures range { IsWithin (pos 2097152) result }
{
    i64::from(t) - i64::from(s)
}

// Returns the product of two differences of coordinates.
fn product(u: i64, v: i64) -> i64
    requires u { IsWithin (pos 2097152) u }
    requires v { IsWithin (pos 2097152) v }
    ensures value { result ≡ u *ℤ v }
    ensures range { IsWithin (pos 4398046511104) result }
{
    u * v
}

// Returns the product of `u` and `v` less that of `s` and `t`, all of them differences of coordinates.
fn minor(u: i64, v: i64, s: i64, t: i64) -> i64
    requires u { IsWithin (pos 2097152) u }
    requires v { IsWithin (pos 2097152) v }
    requires s { IsWithin (pos 2097152) s }
    requires t { IsWithin (pos 2097152) t }
    ensures { result ≡ (u *ℤ v) -ℤ (s *ℤ t) }
{
    product(u, v) - product(s, t)
}

/// Returns twice the signed area of the triangle `a`, `b`, `c`: positive where `c` lies to the left of the line from
/// `a` to `b`, and zero where the three are collinear.
pub fn area2(a: Point, b: Point, c: Point) -> i64
    requires a { IsInRange a }
    requires b { IsInRange b }
    requires c { IsInRange c }
    ensures { result ≡ area a b c }
{
    minor(
        difference(a.x, b.x),
        difference(a.y, c.y),
        difference(a.x, c.x),
        difference(a.y, b.y),
    )
}

// Says whether `v` is between `s` and `t`, or one of them.
fn is_between(s: i32, t: i32, v: i32) -> bool
    ensures { IsTrue result ↔ IsBetween s t v }
{
    (s <= v && v <= t) || (t <= v && v <= s)
}

// Says whether `p` lies in the bounding box of `a` and `b`.
fn is_in_box(p: Point, a: Point, b: Point) -> bool
    ensures { IsTrue result ↔ (IsBetween a.x b.x p.x × IsBetween a.y b.y p.y) }
{
    is_between(a.x, b.x, p.x) && is_between(a.y, b.y, p.y)
}

/// Says whether `p` lies on the segment from `a` to `b`, its ends included.
pub fn on_segment(p: Point, a: Point, b: Point) -> bool
    requires p { IsInRange p }
    requires a { IsInRange a }
    requires b { IsInRange b }
    ensures { IsTrue result ↔ IsOnSegment p a b }
{
    area2(a, b, p) == 0 && is_in_box(p, a, b)
}

// Says whether one of two numbers is negative and the other positive.
fn are_opposite(s: i64, t: i64) -> bool
    ensures { IsTrue result ↔ AreOpposite s t }
{
    (s < 0 && 0 < t) || (0 < s && t < 0)
}

/// Says whether the segments `a` to `b` and `c` to `d` cross: each has its ends strictly on the two sides of the other.
pub fn crosses(a: Point, b: Point, c: Point, d: Point) -> bool
    requires a { IsInRange a }
    requires b { IsInRange b }
    requires c { IsInRange c }
    requires d { IsInRange d }
    ensures { IsTrue result ↔ DoCross a b c d }
{
    are_opposite(area2(a, b, c), area2(a, b, d)) && are_opposite(area2(c, d, a), area2(c, d, b))
}

// Says whether the direction `d` points west or upwards, in the first half of the clockwise order.
fn is_first_half(d: Point) -> bool
    ensures { IsTrue result ↔ IsFirstHalf d }
{
    0 < d.y || (d.y == 0 && d.x < 0)
}

// Returns the cross product of two directions.
fn cross2(d: Point, e: Point) -> i64
    requires d { IsDirection d }
    requires e { IsDirection e }
    ensures { result ≡ cross d e }
{
    minor(
        i64::from(d.x),
        i64::from(e.y),
        i64::from(e.x),
        i64::from(d.y),
    )
}

/// Says whether direction `d` comes strictly before direction `e` in the clockwise order that starts at west. No
/// coordinate of the two is beyond 2^21 in size, and neither is (0, 0).
pub fn clock_before(d: Point, e: Point) -> bool
    requires d { IsDirection d }
    requires e { IsDirection e }
    ensures { IsTrue result ↔ IsClockBefore d e }
{
    let d_first = is_first_half(d);
    let e_first = is_first_half(e);
    if d_first == e_first {
        cross2(d, e) < 0
    } else {
        d_first
    }
}
