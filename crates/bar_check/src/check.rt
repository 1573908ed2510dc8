//! The public call `check_bars`, which finds a visibility drawing's first fault, and its stages with fixed-size tables.
ghost use Rattle.std.specs.Prelude.{◌≡◌, ◌<◌, ◌≤◌, length, MatchOption};
ghost use Rattle.map_theory.specs.Maps.{edge_count};
ghost use Rattle.drawings.specs.Bars.{HasBars, IsValidBars};
ghost use Rattle.bar_check.specs.Verdicts.{HasShape, HasHeights, AreBars, NoneThrough, NoneOverlap, KeepsTurns, IsBarVerdict};

use crate::BarVerdict;
use crate::drawing::{BarDrawing, Bars, OrderedBars};
use crate::exact_sweep::fill_order;
use crate::heights_and_bars::{first_bad_bar, first_bad_height};
use half_edges::HalfMap;
use pg_plane::BarFigure;

impl BarDrawing<'_> {
    // Returns `Turned` for the least vertex whose list is not in edge order, or `Yes`. No bar may be in an edge's way.
    fn first_of_turns(&self) -> BarVerdict
        requires through { NoneThrough self.now.map.now.lists self.now.fig.now }
        ensures { IsBarVerdict self.now.map.now.lists self.now.fig.now self.now.width result }
    {
        match self.first_turned() {
            Some(v) => BarVerdict::Turned(v),
            None => BarVerdict::Yes,
        }
    }

    // Returns the first fault of an edge with a bar in its way or of a list, for `n` vertices. The tables have room for
    // `MOST` vertices, `COLUMNS` columns, `BLOCKS` blocks of 16 columns and `SUPERBLOCKS` superblocks of 256.
    fn first_fault_of<
        const MOST: usize,
        const COLUMNS: usize,
        const BLOCKS: usize,
        const SUPERBLOCKS: usize,
    >(&self, n: usize) -> BarVerdict
        requires n { n ≡ length self.now.map.now.lists }
        requires most { n ≤ MOST }
        requires room { (MOST < 4096) × (COLUMNS < 65536) × (BLOCKS < 65536) × (SUPERBLOCKS < 65536) }
        ensures { IsBarVerdict self.now.map.now.lists self.now.fig.now self.now.width result }
    {
        let mut order = [0; MOST];
        let mut peaks = [0; COLUMNS];
        let mut blocks = [0; BLOCKS];
        let mut superblocks = [0; SUPERBLOCKS];
        fill_order(self.fig, &mut order[..n]);
        let ordered = OrderedBars {
            drawing: *self,
            order: &order[..n],
        };
        ordered.first_fault(&mut peaks, &mut blocks, &mut superblocks)
    }
}

impl OrderedBars<'_> {
    // Returns the first edge with a bar in its way, found by the exact sweep, or else the first fault of a list. The
    // tables have room for `COLUMNS` columns and `DARTS` darts.
    #[inline(never)]
    fn first_struck_of<const COLUMNS: usize, const DARTS: usize>(&self) -> BarVerdict
        requires room { (COLUMNS < 65536) × (DARTS < 65536) }
        ensures { IsBarVerdict self.now.drawing.map.now.lists self.now.drawing.fig.now self.now.drawing.width result }
    {
        let mut tops = [0; COLUMNS];
        let mut clear = [false; DARTS];
        self.fill_clear(&mut tops, &mut clear);
        match self.drawing.first_through(&clear) {
            Some((e, v)) => BarVerdict::Through(e, v),
            None => self.drawing.first_of_turns(),
        }
    }

    // Returns the first fault of an edge with a bar in its way or of a list. `peaks`, `blocks` and `superblocks`, all 0
    // at first, are scratch space of the quick sweep. Only where that does not pass, the exact one follows.
    fn first_fault(
        &self,
        peaks: &mut [i32],
        blocks: &mut [i32],
        superblocks: &mut [i32],
    ) -> BarVerdict
        ensures { IsBarVerdict self.now.drawing.map.now.lists self.now.drawing.fig.now self.now.drawing.width result }
    {
        if self.passes_all(peaks, blocks, superblocks) {
            return self.drawing.first_of_turns();
        }
        let n = self.drawing.map.n();
        // room for 2n - 4 faces and 3n - 6 edges, the most of a plane map
        if n <= 63 {
            self.first_struck_of::<122, 366>()
        } else if n <= 255 {
            self.first_struck_of::<506, 1518>()
        } else {
            self.first_struck_of::<8186, 24558>()
        }
    }
}

impl Bars<'_> {
    // Returns the first fault of a column, of an edge through a bar or of a list, for `n` vertices. Its tables hold
    // `MOST` vertices, `COLUMNS` columns, `BLOCKS` blocks of 16, `SUPERBLOCKS` superblocks of 256 and `DARTS` darts.
    #[inline(never)]
    fn first_fault_of<
        const MOST: usize,
        const COLUMNS: usize,
        const BLOCKS: usize,
        const SUPERBLOCKS: usize,
        const DARTS: usize,
    >(&self, n: usize) -> BarVerdict
        requires n { n ≡ length self.now.map.now.lists }
        requires most { n ≤ MOST }
        requires room { (MOST < 4096) × (COLUMNS < 65536) × (BLOCKS < 65536) × (SUPERBLOCKS < 65536) × (DARTS < 65536) }
        ensures { IsBarVerdict self.now.map.now.lists self.now.fig.now self.now.width result }
    {
        let Bars { map, fig, width } = *self;
        let mut next = [0; MOST];
        let mut columns = [0; DARTS];
        match self.fill_columns(&mut next[..n], &mut columns) {
            Some(e) => BarVerdict::BadColumn(e),
            None => BarDrawing {
                map,
                fig,
                width,
                columns: &columns,
            }
            .first_fault_of::<MOST, COLUMNS, BLOCKS, SUPERBLOCKS>(n),
        }
    }

    // Returns the first fault of a column, of an edge through a bar or of a list. Tables hold 63, 255 or 4095 vertices.
    fn first_fault(&self) -> BarVerdict
        ensures { IsBarVerdict self.now.map.now.lists self.now.fig.now self.now.width result }
    {
        let n = self.map.n() as usize;
        // room for 2n - 4 faces and 3n - 6 edges, the most of a plane map
        if n <= 63 {
            self.first_fault_of::<63, 122, 8, 1, 366>(n)
        } else if n <= 255 {
            self.first_fault_of::<255, 506, 32, 2, 1518>(n)
        } else {
            self.first_fault_of::<4095, 8186, 512, 32, 24558>(n)
        }
    }
}

/// Returns the first fault of the visibility drawing `fig`, in the order of the variants of `BarVerdict`, with the
/// least ids. It is `Yes` exactly where `fig` is one of the map within `width`.
///
/// `fig` has a bar for each vertex. It takes no memory from the heap, and at most 200 KB of the stack. The time is that
/// of reading the map, and for each bar a step for each column that it holds. Whole blocks of 16 and of 256 columns may
/// take one step. Only where a bar is in the way, a second sweep fills the columns of each bar, and an edge that it
/// does not pass is compared with each vertex.
pub fn check_bars(map: &HalfMap, fig: &BarFigure, width: i32) -> BarVerdict
    requires { HasBars map.now.lists fig.now }
    ensures { IsBarVerdict map.now.lists fig.now width result }
{
    if fig.column.len() != map.m() as usize {
        return BarVerdict::BadShape;
    }
    if let Some(v) = first_bad_height(map, fig) {
        return BarVerdict::BadHeight(v);
    }
    match first_bad_bar(map, fig, width) {
        Some(v) => BarVerdict::BadBar(v),
        None => Bars { map, fig, width }.first_fault(),
    }
}
