//! Points, whole numbers and bars parsed from the text of a row, and written as texts.
ghost use Rattle.std.specs.Prelude.{◌≡◌, ◌<◌, ℕ, IfSome, IsTrue, length, All};
ghost use Rattle.pg_plane.specs.Range.{IsInRange};
ghost use Rattle.plane_drawings.specs.Drawing.{place};

use crate::reply::Reply;
use crate::row_arguments::{halves, part};
use pg_plane::{BarFigure, Ints, MOST_COORDINATE, Point, Points};
use std::alloc::Global;

/// Returns the whole number that a text is, and 0 where it is none. `+` and `-` stand for the ends of the range.
pub fn integer(text: &str) -> i32 {
    match text {
        "+" => MOST_COORDINATE,
        "-" => -MOST_COORDINATE,
        _ => text.parse::<i32>().unwrap_or(0),
    }
}

/// Returns the whole numbers that a text names, with spaces between them.
pub fn integers(alloc: Global, text: &str) -> Ints {
    let mut found = Ints::new(alloc);
    for word in text.split_whitespace() {
        let _ = found.push(integer(word));
    }
    found
}

/// Writes whole numbers with spaces between them, behind a text.
pub fn put_integers(text: &str, list: &Ints, out: &mut Reply) {
    out.put(text);
    for i in 0..list.len() {
        out.put_gap(i);
        out.put_whole(i64::from(list.get(i)));
    }
}

/// Returns the point of two whole numbers.
pub fn point_of(text: &str) -> Point {
    let (x, y) = halves(text);
    Point {
        x: integer(x),
        y: integer(y),
    }
}

/// Returns the points that a text has between its semicolons.
pub fn points_of(alloc: Global, text: &str) -> Points {
    let mut points = Points::new(alloc);
    for word in text.split(';') {
        let _ = points.push(point_of(word));
    }
    points
}

/// Writes the first points, at most so many, with `;` between them.
pub fn put_points(points: &Points, most: usize, out: &mut Reply) {
    for i in 0..points.len().min(most) {
        if 0 < i {
            out.put_letter(';');
        }
        let point = points.get(i);
        out.put_whole(i64::from(point.x));
        out.put_letter(' ');
        out.put_whole(i64::from(point.y));
    }
}

/// Says whether no coordinate of a point is beyond the range.
pub fn is_in_range(p: Point) -> bool
    ensures { IsTrue result → IsInRange p }
{
    -MOST_COORDINATE <= p.x
        && p.x <= MOST_COORDINATE
        && -MOST_COORDINATE <= p.y
        && p.y <= MOST_COORDINATE
}

/// Says whether no coordinate of the points is beyond the range.
pub fn are_in_range(points: &Points) -> bool
    ensures all { IsTrue result → All IsInRange points.now }
    ensures each { IsTrue result → (v : ℕ) → v < length points.now → IsInRange (place points.now v) }
{
    for i in 0..points.len() {
        if !is_in_range(points.get(i)) {
            return false;
        }
    }
    true
}

/// Returns the bars of these heights, left ends and right ends, with their columns, if there are `n` of each.
pub fn bars_of(alloc: Global, args: &[&str], n: usize) -> Option<BarFigure>
    ensures heights { IfSome result (λ bars. length bars.y ≡ n) }
    ensures lefts { IfSome result (λ bars. length bars.x1 ≡ n) }
    ensures rights { IfSome result (λ bars. length bars.x2 ≡ n) }
{
    let y = integers(alloc, part(args, 0));
    let x1 = integers(alloc, part(args, 1));
    let x2 = integers(alloc, part(args, 2));
    let column = integers(alloc, part(args, 3));
    if y.len() == n && x1.len() == n && x2.len() == n {
        Some(BarFigure { y, x1, x2, column })
    } else {
        None
    }
}
