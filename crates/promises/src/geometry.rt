//! Promised contracts of the predicates of points: signed areas, segments and directions.
ghost use Rattle.std.specs.Prelude.{◌≡◌, ◌↔◌, IsTrue};
ghost use Rattle.pg_plane.specs.Geometry.{area, IsOnSegment, DoCross, IsClockBefore};
ghost use Rattle.pg_plane.specs.Range.{IsInRange, IsDirection};

use pg_plane::Point;

/// Returns twice the signed area of the triangle `a`, `b`, `c`.
pub fn area2(a: Point, b: Point, c: Point) -> i64
    requires a { IsInRange a }
    requires b { IsInRange b }
    requires c { IsInRange c }
    ensures { result ≡ area a b c }
{
    pg_plane::area2(a, b, c)
}

/// Tells whether `p` is on the segment from `a` to `b`.
pub fn on_segment(p: Point, a: Point, b: Point) -> bool
    requires p { IsInRange p }
    requires a { IsInRange a }
    requires b { IsInRange b }
    ensures { IsTrue result ↔ IsOnSegment p a b }
{
    pg_plane::on_segment(p, a, b)
}

/// Tells whether the segments from `a` to `b` and from `c` to `d` cross.
pub fn crosses(a: Point, b: Point, c: Point, d: Point) -> bool
    requires a { IsInRange a }
    requires b { IsInRange b }
    requires c { IsInRange c }
    requires d { IsInRange d }
    ensures { IsTrue result ↔ DoCross a b c d }
{
    pg_plane::crosses(a, b, c, d)
}

/// Tells whether direction `d` comes before `e`, clockwise from west.
pub fn clock_before(d: Point, e: Point) -> bool
    requires d { IsDirection d }
    requires e { IsDirection e }
    ensures { IsTrue result ↔ IsClockBefore d e }
{
    pg_plane::clock_before(d, e)
}
