//! Tests of heights and bars, vertex by vertex, and whether bars hold a column.
ghost use Rattle.std.specs.Prelude.{◌≡◌, ◌≢◌, ◌<◌, ◌≤◌, ◌↔◌, ℕ, true, false, length, slice_index_or, pos, IsTrue, MatchOption};
ghost use Rattle.vertex_rounds.specs.Least.{IsLeast};
ghost use Rattle.drawings.specs.Bars.{number_at, Holds, IsBar, IsColumn};
ghost use Rattle.bar_check.specs.Faults.{HasBadHeight, HasBadBar};
ghost use Rattle.bar_check.specs.Verdicts.{HasHeights, AreBars};
ghost use Rattle.bar_check.specs.Tables.{IsFree};

use crate::drawing::Bars;
use half_edges::{HalfMap, VertexId};
use pg_plane::{BarFigure, Ints};

// Returns entry `i` of `list`, or 0 past its end.
pub(crate) fn entry_or_zero(list: &Ints, i: usize) -> i32
    ensures { result ≡ number_at list.now i }
{
    if i < list.len() { list.get(i) } else { 0 }
}

// Says whether `z` is the index of an entry of `seen` that is not marked.
fn is_free(seen: &[bool], z: i32) -> bool
    ensures { IsTrue result ↔ IsFree seen.now z }
{
    0 <= z && (z as usize) < seen.len() && !seen[z as usize]
}

// Marks entry `z` of `seen`.
fn mark(seen: &mut [bool], z: i32)
    requires { IsFree seen.old z }
    ensures size { length seen.new ≡ length seen.old }
    ensures here { (k : ℕ) → z ≡ pos k → slice_index_or seen.new k false ≡ true }
    ensures elsewhere { (k : ℕ) → z ≢ pos k → slice_index_or seen.new k false ≡ slice_index_or seen.old k false }
{
    seen[z as usize] = true;
}

// Returns the least vertex whose height in `fig` is out of range or a lesser one's, or `None`. `seen` is all false.
fn first_bad_height_in(map: &HalfMap, fig: &BarFigure, seen: &mut [bool]) -> Option<VertexId>
    requires size { length seen.old ≡ length map.now.lists }
    requires none { (k : ℕ) → slice_index_or seen.old k false ≡ false }
    ensures { MatchOption result (HasHeights map.now.lists fig.now)
        (λ v. IsLeast (HasBadHeight map.now.lists fig.now) v.0) }
{
    for v in 0..map.n() {
        let height = entry_or_zero(&fig.y, v as usize);
        if !is_free(seen, height) {
            return Some(VertexId(v));
        }
        mark(seen, height);
    }
    None
}

// Returns the least of `n` vertices whose height in `fig` is wrong, or `None`. It has `MOST` marks on the stack.
fn first_bad_height_of<const MOST: usize>(
    map: &HalfMap,
    fig: &BarFigure,
    n: usize,
) -> Option<VertexId>
    requires n { n ≡ length map.now.lists }
    requires most { n ≤ MOST }
    requires room { MOST < 4096 }
    ensures { MatchOption result (HasHeights map.now.lists fig.now)
        (λ v. IsLeast (HasBadHeight map.now.lists fig.now) v.0) }
{
    let mut seen = [false; MOST];
    first_bad_height_in(map, fig, &mut seen[..n])
}

// Returns the least vertex whose height in `fig` is not from 0 to n - 1, or is that of a lesser vertex, or `None`.
pub(crate) fn first_bad_height(map: &HalfMap, fig: &BarFigure) -> Option<VertexId>
    ensures { MatchOption result (HasHeights map.now.lists fig.now)
        (λ v. IsLeast (HasBadHeight map.now.lists fig.now) v.0) }
{
    let n = map.n() as usize;
    if n <= 255 {
        first_bad_height_of::<255>(map, fig, n)
    } else {
        first_bad_height_of::<4095>(map, fig, n)
    }
}

// Says whether the bar of `v` goes from left to right within the columns 0 to `width`.
fn is_bar(fig: &BarFigure, width: i32, v: VertexId) -> bool
    ensures { IsTrue result ↔ IsBar fig.now width v.0 }
{
    let left = entry_or_zero(&fig.x1, v.0 as usize);
    let right = entry_or_zero(&fig.x2, v.0 as usize);
    0 <= left && left <= right && right <= width
}

// Returns the least vertex whose bar in `fig` does not go left to right within the columns 0 to `width`, or `None`.
pub(crate) fn first_bad_bar(map: &HalfMap, fig: &BarFigure, width: i32) -> Option<VertexId>
    ensures { MatchOption result (AreBars map.now.lists fig.now width)
        (λ v. IsLeast (HasBadBar map.now.lists fig.now width) v.0) }
{
    for v in 0..map.n() {
        if !is_bar(fig, width, VertexId(v)) {
            return Some(VertexId(v));
        }
    }
    None
}

// Says whether the bar of `v` holds column `x`.
pub(crate) fn holds(fig: &BarFigure, v: VertexId, x: i32) -> bool
    ensures { IsTrue result ↔ Holds fig.now v.0 x }
{
    entry_or_zero(&fig.x1, v.0 as usize) <= x && x <= entry_or_zero(&fig.x2, v.0 as usize)
}

impl Bars<'_> {
    // Says whether column `x` lies within the width and within the bars of `a` and `b`.
    pub(crate) fn is_column(&self, a: VertexId, b: VertexId, x: i32) -> bool
        ensures { IsTrue result ↔ IsColumn self.now.fig.now self.now.width a.0 b.0 x }
    {
        0 <= x && x <= self.width && holds(self.fig, a, x) && holds(self.fig, b, x)
    }
}
