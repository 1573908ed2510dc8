//! Along which axis one point lies from another, by the signs of three differences.
ghost use Rattle.std.specs.Prelude.{◌≡◌, ◌↔◌, ◌≤ℤ◌, ◌+ℤ◌, IsTrue};
ghost use Rattle.convex_laws.specs.Signs.{IsRisingBy};

use convex_counts::face_woods::Axis;
use pg_plane::Point;

// Returns the sum of both coordinates of `p`.
fn sum_of(p: Point) -> i64
    ensures { result ≡ p.x +ℤ p.y }
{
    p.x as i64 + p.y as i64
}

// Says whether x does not fall from `p` to `q`.
fn x_stays(p: Point, q: Point) -> bool
    ensures { IsTrue result ↔ (p.x ≤ℤ q.x) }
{
    p.x <= q.x
}

// Says whether y does not fall from `p` to `q`.
fn y_stays(p: Point, q: Point) -> bool
    ensures { IsTrue result ↔ (p.y ≤ℤ q.y) }
{
    p.y <= q.y
}

// Says whether the sum of x and y does not fall from `p` to `q`.
fn sum_stays(p: Point, q: Point) -> bool
    ensures { IsTrue result ↔ ((p.x +ℤ p.y) ≤ℤ (q.x +ℤ q.y)) }
{
    sum_of(p) <= sum_of(q)
}

// Says whether from `p` to `q` the coordinate of `axis` rises and no other: x, y, or what both lack of a constant sum.
pub(crate) fn rises(axis: Axis, p: Point, q: Point) -> bool
    ensures { IsTrue result ↔ IsRisingBy axis p q }
{
    match axis {
        Axis::One => p.x < q.x && y_stays(q, p) && sum_stays(p, q),
        Axis::Two => p.y < q.y && x_stays(q, p) && sum_stays(p, q),
        Axis::Three => sum_of(q) < sum_of(p) && x_stays(q, p) && y_stays(q, p),
    }
}
