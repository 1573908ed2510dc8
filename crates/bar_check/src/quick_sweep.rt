//! The quick sweep over the bars from below, which shows for valid drawings that no bar is in the way of an edge. It
//! keeps the peak of each column: how high its edges reach that have begun. A bar is in the way of no edge where no
//! peak of a column that it holds is above it. The peaks of blocks of 16 columns and of superblocks of 256 are kept
//! too, so that a long bar takes few steps.
ghost use Rattle.std.specs.Prelude.{◌≡◌, ◌+◌, ◌/◌, ◌<◌, ◌≤◌, ◌≤ℤ◌, ◌<ℤ◌, ◌↔◌, ℕ, length, pos, Some, IsTrue};
ghost use Rattle.std.specs.Bool.{OnTrue};
ghost use Rattle.map_theory.specs.Maps.{list_of, place_of};
ghost use Rattle.half_edges.specs.Map.{IsLive, dart_at, first_dart};
ghost use Rattle.vertex_rounds.specs.Rounds.{dart_of};
ghost use Rattle.drawings.specs.Bars.{number_at, Holds};
ghost use Rattle.bar_check.specs.Verdicts.{NoneThrough};
ghost use Rattle.bar_check.specs.Tables.{StandsAt};
ghost use Rattle.bar_check.specs.Reach.{IsRaised, IsReached, IsPassed, IsUp, IsBegun, HasReach, IsSwept};

use crate::drawing::{Bar, OrderedBars};
use crate::exact_sweep::{natural, stands_at};
use crate::heights_and_bars::entry_or_zero;
use half_edges::{DartId, VertexId};
use vertex_rounds::later_dart;

// Returns the greater of `a` and `b`.
fn greater(a: i32, b: i32) -> i32
    ensures left { a ≤ℤ result }
    ensures right { b ≤ℤ result }
{
    if a < b { b } else { a }
}

// Raises entry `i` of `table` to at least `y`. Returns false, and changes nothing, if the table has no such entry.
fn raise(table: &mut [i32], i: usize, y: i32) -> bool
    ensures { OnTrue result (IsRaised i y table.old table.new) }
{
    if i < table.len() {
        table[i] = greater(table[i], y);
        true
    } else {
        false
    }
}

// Says whether `table` has an entry `i`, and it is not above `h`. Only true is promised.
fn is_low(table: &[i32], i: usize, h: u16) -> bool
    ensures { OnTrue result (number_at table.now i ≤ℤ pos h) }
{
    i < table.len() && table[i] <= i32::from(h)
}

// Returns the first index from `k` on and before `end` whose entry of `table` is above `h` or missing; or `end`.
fn low_until(table: &[i32], h: u16, k: usize, end: usize) -> usize
    ensures low { (x : ℕ) → k ≤ x → x < result → number_at table.now x ≤ℤ pos h }
    ensures few { (most : ℕ) → k ≤ most → end ≤ most → result ≤ most }
{
    let mut at = k;
    while at < end && is_low(table, at, h) {
        at += 1;
    }
    at
}

// The peaks of columns, blocks of 16 columns and superblocks of 256: the greatest heights that edges begun there reach.
#[derive(Clone, Copy)]
struct Peaks<'a> {
    columns: &'a [i32],
    blocks: &'a [i32],
    superblocks: &'a [i32],
}

impl Peaks<'_> {
    // Returns a column after `k` before which no edge of the columns from `k` on reaches above height `h`, or `k` if
    // one of column `k` does. It passes whole blocks and superblocks up to that of `right`.
    fn passed_to(&self, h: u16, k: usize, right: usize) -> usize
        requires k { k < 4294967296 }
        requires right { right < 4294967296 }
        ensures { (x : ℕ) → k ≤ x → x < result → IsPassed h x self.now.columns.now self.now.blocks.now self.now.superblocks.now }
    {
        if k % 256 == 0 && is_low(self.superblocks, k / 256, h) {
            low_until(self.superblocks, h, k / 256, right / 256 + 1) * 256
        } else if k % 16 == 0 && is_low(self.blocks, k / 16, h) {
            low_until(
                self.blocks,
                h,
                k / 16,
                ((k / 256 + 1) * 16).min(right / 16 + 1),
            ) * 16
        } else {
            low_until(self.columns, h, k, ((k / 16 + 1) * 16).min(right + 1))
        }
    }
}

impl Bar<'_> {
    // Raises `peaks`, `blocks` and `superblocks`, at the column of the edge of dart `d`, to the height of its head, if
    // that is above this vertex. Returns false if a table has no entry for it.
    fn begin_if_up(
        &self,
        peaks: &mut [i32],
        blocks: &mut [i32],
        superblocks: &mut [i32],
        d: DartId,
    ) -> bool
        requires live { IsLive self.now.drawing.map.now d.0 }
        requires tail { (dart_of self.now.drawing.map.now d.0).0 ≡ self.now.v.0 }
        requires reach { HasReach self.now.drawing.map.now.lists self.now.drawing.fig.now (IsBegun self.now.drawing.map.now.lists self.now.drawing.fig.now self.now.h self.now.v.0 (place_of (dart_of self.now.drawing.map.now d.0).1 (list_of self.now.drawing.map.now.lists self.now.v.0))) peaks.old blocks.old superblocks.old }
        ensures { OnTrue result (HasReach self.now.drawing.map.now.lists self.now.drawing.fig.now (IsBegun self.now.drawing.map.now.lists self.now.drawing.fig.now self.now.h self.now.v.0 (place_of (dart_of self.now.drawing.map.now d.0).1 (list_of self.now.drawing.map.now.lists self.now.v.0) + 1)) peaks.new blocks.new superblocks.new) }
    {
        let y = entry_or_zero(&self.drawing.fig.y, self.drawing.map.head(d).0 as usize);
        if y < i32::from(self.h) {
            return true;
        }
        if self.drawing.columns.len() <= d.0 as usize {
            return false;
        }
        let x = self.drawing.column_at(d);
        if x < 0 {
            return false;
        }
        let k = natural(x);
        raise(peaks, k, y) && raise(blocks, k / 16, y) && raise(superblocks, k / 256, y)
    }

    // Raises `peaks`, `blocks` and `superblocks`, at the columns of this vertex's upward edges, to the heights of their
    // upper ends. Returns false if a table has no entry for one.
    fn begin_edges(&self, peaks: &mut [i32], blocks: &mut [i32], superblocks: &mut [i32]) -> bool
        requires reach { HasReach self.now.drawing.map.now.lists self.now.drawing.fig.now (IsBegun self.now.drawing.map.now.lists self.now.drawing.fig.now self.now.h self.now.v.0 0) peaks.old blocks.old superblocks.old }
        ensures { OnTrue result (HasReach self.now.drawing.map.now.lists self.now.drawing.fig.now (IsBegun self.now.drawing.map.now.lists self.now.drawing.fig.now self.now.h self.now.v.0 (length (list_of self.now.drawing.map.now.lists self.now.v.0))) peaks.new blocks.new superblocks.new) }
    {
        let bar = *self;
        let Some(first) = bar.drawing.map.first_dart(bar.v) else {
            return true;
        };
        let mut d = first;
        'round: loop {
            if !bar.begin_if_up(peaks, blocks, superblocks, d) {
                return false;
            }
            match later_dart(bar.drawing.map, d) {
                Some(later) => d = later,
                None => return true,
            }
        }
    }

    // Says whether this bar is in the way of no edge, by the peaks of the columns that it holds (how high the edges
    // reach that begin there). If so, it raises `peaks`, `blocks` and `superblocks` at its own upward edges. Returns
    // false too where a table is too short.
    fn meets(&self, peaks: &mut [i32], blocks: &mut [i32], superblocks: &mut [i32]) -> bool
        requires swept { IsSwept self.now.drawing.map.now.lists self.now.drawing.fig.now self.now.h peaks.old blocks.old superblocks.old }
        ensures { OnTrue result (IsSwept self.now.drawing.map.now.lists self.now.drawing.fig.now (self.now.h + 1) peaks.new blocks.new superblocks.new) }
    {
        let known = Peaks {
            columns: peaks,
            blocks,
            superblocks,
        };
        let left = natural(entry_or_zero(&self.drawing.fig.x1, self.v.0 as usize));
        let right = natural(entry_or_zero(&self.drawing.fig.x2, self.v.0 as usize));
        let mut k = left;
        while k <= right {
            let next = known.passed_to(self.h, k, right);
            if next <= k {
                return false;
            }
            k = next;
        }
        self.begin_edges(peaks, blocks, superblocks)
    }
}

impl OrderedBars<'_> {
    // Says whether a sweep over the bars in this order shows that none is in the way of an edge. The tables `peaks`,
    // `blocks` and `superblocks` are 0 at first, and overwritten; they have an entry for each column, 16 columns and
    // 256 columns.
    pub(crate) fn passes_all(
        &self,
        peaks: &mut [i32],
        blocks: &mut [i32],
        superblocks: &mut [i32],
    ) -> bool
        ensures { OnTrue result (NoneThrough self.now.drawing.map.now.lists self.now.drawing.fig.now) }
    {
        let OrderedBars { drawing, order } = *self;
        drawing.map.facts();
        for h in 0..drawing.map.n() {
            let v = VertexId(order[h as usize]);
            if !stands_at(drawing.fig, drawing.map.n(), h, v) {
                return false;
            }
            let bar = Bar { drawing, h, v };
            if !bar.meets(peaks, blocks, superblocks) {
                return false;
            }
        }
        true
    }
}
