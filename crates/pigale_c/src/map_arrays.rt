//! Maps and points read from the caller's arrays, and results written into arrays.
ghost use Rattle.std.specs.Prelude.{◌≡◌, ◌<◌, ◌≤◌, ◌↔◌, ◌++◌, length, take, drop, pos, IsTrue, IfOk, IfErr, MatchBool};
ghost use Rattle.map_lists.specs.Cuts.{AreCuts};
ghost use Rattle.pg_plane.specs.Range.{IsInRange, IsWithin};
ghost use Rattle.pigale_c.specs.Arrays.{lists_in, points_in, IsGivenMap, AllInRange, ArePlaces};
ghost use Rattle.pigale_c.specs.Failures.{IsBadOnly};
ghost use Rattle.pigale_c.specs.Written.{AreWritten, HasNoRoom};

use crate::outcome::Failure;
use map_lists::{MOST_VERTICES, Rotations};
use pg_plane::{MOST_COORDINATE, Point, Points};
use std::alloc::Global;

/// The arrays of a map, as they are given: where the list of each vertex ends, and the neighbours.
#[derive(Clone, Copy)]
pub(crate) struct MapArrays<'a> {
    pub(crate) alloc: Global,
    pub(crate) ends: &'a [usize],
    pub(crate) neighbours: &'a [u16],
}

/// Says whether `ends` do not fall, and the last one, or 0 if there is none, is `total`.
pub(crate) fn are_cuts(ends: &[usize], total: usize) -> bool
    ensures { IsTrue result ↔ AreCuts 0 ends.now total }
{
    let mut from = 0;
    for end in ends {
        if *end < from {
            return false;
        }
        from = *end;
    }
    from == total
}

// Says whether two arrays describe a map: 1 to 4095 ends, which do not fall and cut up all `neighbours`.
fn is_given_map(ends: &[usize], neighbours: &[u16]) -> bool
    ensures { IsTrue result ↔ IsGivenMap ends.now neighbours.now }
{
    !ends.is_empty() && ends.len() <= usize::from(MOST_VERTICES) && are_cuts(ends, neighbours.len())
}

/// Copies the lists of `neighbours`, cut at `ends`. Fails with `BadArgument` unless these cut all of it into 1 to 4095
/// lists, and with `NoMemory`.
pub(crate) fn lists_of(
    alloc: Global,
    ends: &[usize],
    neighbours: &[u16],
) -> Result<Rotations, Failure>
    ensures lists { IfOk result (λ lists. lists ≡ lists_in ends.now neighbours.now) }
    ensures given { IfOk result (λ lists. IsGivenMap ends.now neighbours.now) }
    ensures count { IfOk result (λ lists. length lists ≡ length ends.now) }
    ensures some_list { IfOk result (λ lists. 0 < length lists) }
    ensures failed { IfErr result (IsBadOnly (IsGivenMap ends.now neighbours.now)) }
{
    if !is_given_map(ends, neighbours) {
        return Err(Failure::BadArgument);
    }
    let entries = neighbours.to_vec(alloc)?;
    let pieces = ends.to_vec(alloc)?;
    let lists = Rotations::from_parts(entries, pieces);
    Ok(lists)
}

// Says whether a coordinate is from -2^20 to 2^20.
fn is_coordinate(z: i32) -> bool
    ensures { IsTrue result ↔ IsWithin (pos 1048576) z }
{
    -MOST_COORDINATE <= z && z <= MOST_COORDINATE
}

// Says whether both coordinates of the point `p` are from -2^20 to 2^20.
fn is_in_range(p: Point) -> bool
    ensures { IsTrue result ↔ IsInRange p }
{
    is_coordinate(p.x) && is_coordinate(p.y)
}

/// Copies the points of `n` vertices from their coordinates `x` and `y`. It fails with `BadArgument` where a length is
/// not `n` or a coordinate is not from -2^20 to 2^20, and when out of memory.
pub(crate) fn points_of(alloc: Global, n: usize, x: &[i32], y: &[i32]) -> Result<Points, Failure>
    ensures points { IfOk result (λ points. points ≡ points_in x.now y.now) }
    ensures given { IfOk result (λ points. ArePlaces n x.now y.now) }
    ensures count { IfOk result (λ points. length points ≡ n) }
    ensures in_range { IfOk result AllInRange }
    ensures failed { IfErr result (IsBadOnly (ArePlaces n x.now y.now)) }
{
    if x.len() != n || y.len() != n {
        return Err(Failure::BadArgument);
    }
    let mut points = Points::with_capacity(alloc, n)?;
    for k in 0..n {
        let point = Point { x: x[k], y: y[k] };
        if !is_in_range(point) {
            return Err(Failure::BadArgument);
        }
        points.push(point)?;
    }
    Ok(points)
}

/// Writes the coordinates of `points` into the arrays `x` and `y`, which have an entry for each.
pub(crate) fn put_points(points: &[Point], x: &mut [i32], y: &mut [i32])
    requires x { length x.old ≡ length points.now }
    requires y { length y.old ≡ length points.now }
    ensures { points_in x.new y.new ≡ points.now }
{
    for k in 0..points.len() {
        let point = points[k];
        x[k] = point.x;
        y[k] = point.y;
    }
}

/// Copies `from` to the front of `to`, as much as there is room for.
pub(crate) fn put_front<T: Copy>(from: &[T], to: &mut [T])
    ensures { to.new ≡ take (length to.old) from.now ++ drop (length from.now) to.old }
{
    let count = to.len().min(from.len());
    to[..count].copy_from_slice(&from[..count]);
}

/// Copies `from` to the front of `to`, which is no shorter.
fn put_whole<T: Copy>(from: &[T], to: &mut [T])
    requires { length from.now ≤ length to.old }
    ensures { to.new ≡ from.now ++ drop (length from.now) to.old }
{
    to[..from.len()].copy_from_slice(from);
}

/// Copies `bounds` and `entries`, the ends and the entries of lists, to the fronts of `ends` and `neighbours`. Where one
/// of these is too short it leaves both as they were, and returns false.
pub(crate) fn put_lists(
    bounds: &[usize],
    entries: &[u16],
    ends: &mut [usize],
    neighbours: &mut [u16],
) -> bool
    ensures { MatchBool result (AreWritten bounds.now entries.now ends.old neighbours.old ends.new neighbours.new)
        (HasNoRoom bounds.now entries.now ends.old neighbours.old × (ends.new ≡ ends.old) × (neighbours.new ≡ neighbours.old)) }
{
    if ends.len() < bounds.len() || neighbours.len() < entries.len() {
        return false;
    }
    put_whole(bounds, ends);
    put_whole(entries, neighbours);
    true
}
