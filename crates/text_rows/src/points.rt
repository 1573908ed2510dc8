//! Test rows on the predicates of points: areas, segments, directions.
ghost use Rattle.std.specs.Prelude.{IfSome};
ghost use Rattle.pg_plane.specs.Range.{IsInRange};

use pg_plane::{Point, area2, clock_before, crosses, on_segment};
use row_texts::points::{is_in_range, point_of};
use row_texts::reply::Reply;
use row_texts::rows::Row;

// Parses argument `i` as a point, if it is within the range of coordinates.
fn point(row: &Row<'_>, i: usize) -> Option<Point>
    ensures { IfSome result IsInRange }
{
    let p = point_of(row.arg(i));
    if is_in_range(p) { Some(p) } else { None }
}

// Appends to `out` twice the area of a triangle, whether a point is on a segment, from both of its ends, or whether
// two segments cross. It appends nothing where a point is out of range.
fn put_answer(row: &Row<'_>, out: &mut Reply) -> Option<()> {
    let (a, b, c) = (point(row, 0)?, point(row, 1)?, point(row, 2)?);
    match row.call {
        "area" => out.put_whole(area2(a, b, c)),
        "on" => {
            out.put_flag(on_segment(a, b, c));
            out.put_letter(' ');
            out.put_flag(on_segment(a, c, b));
        }
        _ => out.put_flag(crosses(a, b, c, point(row, 3)?)),
    }
    Some(())
}

// Appends to `out`, for each two directions, whether the first comes before the second clockwise.
fn put_clock(row: &Row<'_>, out: &mut Reply) {
    for i in 0..row.args.len() {
        for j in 0..row.args.len() {
            let before = match (point(row, i), point(row, j)) {
                (Some(p), Some(q)) => clock_before(p, q),
                _ => false,
            };
            out.put_letter(if before { '<' } else { '.' });
        }
        out.put_letter(' ');
    }
}

/// Appends to `out` the answer to a row on points.
pub fn answer(row: &Row<'_>, out: &mut Reply) {
    if row.call == "clock" {
        put_clock(row, out);
    } else {
        let _ = put_answer(row, out);
    }
}
