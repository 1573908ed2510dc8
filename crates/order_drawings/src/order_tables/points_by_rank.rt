//! The points of all vertices, from an x and a y for each rank of an order.
ghost use Rattle.std.specs.Prelude.{◌≡◌, ◌<◌, ◌^◌, ℕ, length, slice_index, All, pos, IfOk};
ghost use Rattle.order_drawings.specs.Points.{ArePointsAt};

use half_edges::Counts;
use pg_plane::{Point, Points};
use std::alloc::AllocError;

// Converts `number`, below 2^20, to a coordinate.
fn coordinate(number: u32) -> i32
    requires { number < 2 ^ 20 }
    ensures { result ≡ pos number }
{
    number as i32
}

// Returns the point of the vertex of rank `k`: its coordinates in `xs` and `ys`.
fn point_at(xs: &[u32], ys: &[u32], k: usize) -> Point
    requires xs { k < length xs.now }
    requires ys { k < length ys.now }
    requires small { (slice_index xs.now k < 2 ^ 20) × (slice_index ys.now k < 2 ^ 20) }
    ensures { result ≡ record { x = pos (slice_index xs.now k); y = pos (slice_index ys.now k) } }
{
    Point {
        x: coordinate(xs[k]),
        y: coordinate(ys[k]),
    }
}

/// Returns the points of all vertices, in the memory of `spent`: a vertex of rank k, its entry in `ranks`, has the
/// coordinates `xs[k]` and `ys[k]`, below 2^20. It fails only when out of memory.
pub fn points_at(
    spent: Points,
    xs: &[u32],
    ys: &[u32],
    ranks: &Counts,
) -> Result<Points, AllocError>
    requires ys { length ys.now ≡ length xs.now }
    requires ranks { All (λ k. k < length xs.now) ranks.now }
    requires small { (k : ℕ) → k < length xs.now → (slice_index xs.now k < 2 ^ 20) × (slice_index ys.now k < 2 ^ 20) }
    ensures { IfOk result (λ points. ArePointsAt xs.now ys.now ranks.now points) }
{
    let mut points = spent.emptied(ranks.len())?;
    for k in ranks.as_slice() {
        points.push(point_at(xs, ys, *k as usize))?;
    }
    Ok(points)
}
