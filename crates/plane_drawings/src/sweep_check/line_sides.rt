//! On which side of a line of the sweep a vertex lies, and whether two neighbouring lines end in their order.
ghost use Rattle.std.specs.Prelude.{◌≡◌, ◌<◌, length, All};
ghost use Rattle.std.specs.Bool.{OnTrue};
ghost use Rattle.pg_plane.specs.Range.{IsInRange};
ghost use Rattle.plane_drawings.specs.Drawing.{place};
ghost use Rattle.plane_drawings.specs.PlaneSweepLines.{IsLine, rise, Ends};

use crate::plane_sweep::Line;
use pg_plane::{Point, area2};

// Returns the point of the vertex of rank `i`, its index in sweep order, from `places`, which has the points by rank.
fn point_at(places: &[Point], i: u16) -> Point
    requires in_range { All IsInRange places.now }
    requires within { i < length places.now }
    ensures point { result ≡ place places.now i }
    ensures range { IsInRange result }
{
    places[i as usize]
}

// Returns twice the area of the triangle of the line and the vertex of rank `w`: positive where the vertex is above the
// line, zero where it is on it. `places` has the points by rank.
pub(crate) fn rise(places: &[Point], line: Line, w: u16) -> i64
    requires in_range { All IsInRange places.now }
    requires line { IsLine (length places.now) line }
    requires within { w < length places.now }
    ensures { result ≡ rise (place places.now) line w }
{
    area2(
        point_at(places, line.low),
        point_at(places, line.high),
        point_at(places, w),
    )
}

// Says whether of lines `e` below `f` the one that ends first ends on its side of the other. Only true is promised.
pub(crate) fn end_apart(places: &[Point], e: Line, f: Line) -> bool
    requires in_range { All IsInRange places.now }
    requires e { IsLine (length places.now) e }
    requires f { IsLine (length places.now) f }
    ensures { OnTrue result (Ends (place places.now) e f) }
{
    if f.high <= e.high {
        0 <= rise(places, e, f.high)
    } else {
        rise(places, f, e.high) <= 0
    }
}
