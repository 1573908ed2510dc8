//! The exact sweep over the bars from below, which marks the edges that have no bar in their way. It keeps for each
//! column the highest bar so far that holds it: an edge whose column shows its lower end is clear.
ghost use Rattle.std.specs.Prelude.{◌≡◌, ◌⊎◌, ◌+◌, ◌<◌, ◌≤◌, ◌≤ℤ◌, ℕ, true, false, length, slice_index, slice_index_or, pos, Some, IsTrue};
ghost use Rattle.std.specs.Bool.{OnTrue};
ghost use Rattle.half_edges.specs.Map.{IsLive, dart_at, first_dart};
ghost use Rattle.pg_plane.specs.declared.figures.BarFigure.{BarFigure as Bars};
ghost use Rattle.vertex_rounds.specs.Rounds.{HasEdge, dart_of};
ghost use Rattle.drawings.specs.Bars.{number_at, column_of, IsStruck};
ghost use Rattle.bar_check.specs.Tables.{AreClear, HasTops, IsSeen, StandsAt};

use crate::drawing::{Bar, OrderedBars};
use crate::heights_and_bars::entry_or_zero;
use half_edges::{DartId, HalfMap, VertexId};
use pg_plane::BarFigure;
use vertex_rounds::later_dart;

// Writes into `order` at index h the vertex of height h in `fig`, where h is such an index.
pub(crate) fn fill_order(fig: &BarFigure, order: &mut [u16])
    requires { length order.old < 4096 }
    ensures { length order.new ≡ length order.old }
{
    for v in 0..order.len() {
        let height = entry_or_zero(&fig.y, v);
        if 0 <= height && (height as usize) < order.len() {
            order[height as usize] = v as u16;
        }
    }
}

// Marks dart `d` in `clear`, if the table has an entry for it.
fn mark_dart(clear: &mut [bool], d: DartId)
    ensures { (e : ℕ) → slice_index_or clear.new e false ≡ true → (e ≡ d.0) ⊎ (slice_index_or clear.old e false ≡ true) }
{
    if (d.0 as usize) < clear.len() {
        clear[d.0 as usize] = true;
    }
}

// Writes `top` into `tops` at the columns from `left` to `right`, both included, as far as the table reaches.
fn fill_between(tops: &mut [u16], left: usize, right: usize, top: u16)
    requires few { right < 4294967296 }
    ensures size { length tops.new ≡ length tops.old }
    ensures inside { (k : ℕ) → left ≤ k → k ≤ right → k < length tops.new → slice_index tops.new k ≡ top }
    ensures outside { (k : ℕ) → (k < left) ⊎ (right < k) → slice_index tops.new k ≡ slice_index tops.old k }
{
    let end = tops.len().min(right + 1);
    if end < left {
        return;
    }
    for k in left..end {
        tops[k] = top;
    }
}

// Converts `z`, which is not negative, to an unsigned number.
pub(crate) fn natural(z: i32) -> usize
    requires { pos 0 ≤ℤ z }
    ensures value { pos result ≡ z }
    ensures few { result < 4294967296 }
{
    z as usize
}

// Says whether `v` is below `n` and has height `h` in `fig`. Only true is promised.
pub(crate) fn stands_at(fig: &BarFigure, n: u16, h: u16, v: VertexId) -> bool
    ensures { OnTrue result (StandsAt n fig.now h v.0) }
{
    v.0 < n && entry_or_zero(&fig.y, v.0 as usize) == i32::from(h)
}

// Says whether `clear` has an entry for dart `d` that is marked.
fn is_marked(clear: &[bool], d: DartId) -> bool
    ensures { IsTrue result → slice_index_or clear.now d.0 false ≡ true }
{
    (d.0 as usize) < clear.len() && clear[d.0 as usize]
}

// Says whether `clear` has a mark at a dart of the edge of `d`: that edge is known to have no bar in its way.
pub(crate) fn is_clear(map: &HalfMap, clear: &[bool], d: DartId) -> bool
    requires live { IsLive map.now d.0 }
    ensures { (fig : Bars) (a b : ℕ) → AreClear map.now fig clear.now → dart_at map.now d.0 ≡ Some (a, b) → HasEdge map.now.lists a b
        → IsTrue result → (w : ℕ) → w < length map.now.lists → ¬ IsStruck fig a b (column_of map.now.lists fig a b) w }
{
    is_marked(clear, d) || is_marked(clear, map.twin(d))
}

impl Bar<'_> {
    // Says whether the bar of `u` is below this one and, by `tops`, the highest so far that holds column `x`. `tops`
    // has for each column the height of its highest bar plus one, or 0. Only true is promised.
    fn is_seen(&self, tops: &[u16], u: VertexId, x: i32) -> bool
        ensures { OnTrue result (IsSeen self.now.drawing.fig.now self.now.h tops.now x u.0) }
    {
        let height = entry_or_zero(&self.drawing.fig.y, u.0 as usize);
        height < i32::from(self.h)
            && 0 <= x
            && (x as usize) < tops.len()
            && i32::from(tops[x as usize]) <= height + 1
    }

    // Marks dart `d` of this vertex in `clear`, where its edge leads down and `tops` shows no bar in its way. Darts
    // beyond the tables get no mark, so their columns are not looked for.
    fn mark_if_seen(&self, tops: &[u16], clear: &mut [bool], d: DartId)
        requires tops { HasTops (length self.now.drawing.map.now.lists) self.now.drawing.fig.now self.now.h tops.now }
        requires live { IsLive self.now.drawing.map.now d.0 }
        requires height { number_at self.now.drawing.fig.now.y (dart_of self.now.drawing.map.now d.0).0 ≡ pos self.now.h }
        requires clear { AreClear self.now.drawing.map.now self.now.drawing.fig.now clear.old }
        ensures { AreClear self.now.drawing.map.now self.now.drawing.fig.now clear.new }
    {
        let drawing = self.drawing;
        if (d.0 as usize) >= clear.len() || (d.0 as usize) >= drawing.columns.len() {
            return;
        }
        if self.is_seen(tops, drawing.map.head(d), drawing.column_at(d)) {
            mark_dart(clear, d);
        }
    }

    // Marks in `clear` this vertex's darts that lead down with no bar in the way; `tops` has each column's highest bar.
    fn mark_list(&self, tops: &[u16], clear: &mut [bool])
        requires tops { HasTops (length self.now.drawing.map.now.lists) self.now.drawing.fig.now self.now.h tops.now }
        requires clear { AreClear self.now.drawing.map.now self.now.drawing.fig.now clear.old }
        ensures { AreClear self.now.drawing.map.now self.now.drawing.fig.now clear.new }
    {
        let bar = *self;
        let Some(first) = bar.drawing.map.first_dart(bar.v) else {
            return;
        };
        let mut d = first;
        'round: loop {
            bar.mark_if_seen(tops, clear, d);
            match later_dart(bar.drawing.map, d) {
                Some(later) => d = later,
                None => return,
            }
        }
    }

    // Writes this bar into `tops` as the highest one of each column that it holds.
    fn put_top(&self, tops: &mut [u16])
        requires few { self.now.h < 65535 }
        requires tops { HasTops (length self.now.drawing.map.now.lists) self.now.drawing.fig.now self.now.h tops.old }
        ensures { HasTops (length self.now.drawing.map.now.lists) self.now.drawing.fig.now (self.now.h + 1) tops.new }
    {
        let fig = self.drawing.fig;
        let left = natural(entry_or_zero(&fig.x1, self.v.0 as usize));
        let right = natural(entry_or_zero(&fig.x2, self.v.0 as usize));
        fill_between(tops, left, right, self.h + 1);
    }
}

impl OrderedBars<'_> {
    // Sweeps over the bars in this order, as long as it is that of their heights, and marks in `clear` the darts of
    // unblocked edges. `tops` is room for the highest bar of each column; neither table has a mark at first.
    pub(crate) fn fill_clear(&self, tops: &mut [u16], clear: &mut [bool])
        requires none { (d : ℕ) → slice_index_or clear.old d false ≡ false }
        ensures { AreClear self.now.drawing.map.now self.now.drawing.fig.now clear.new }
    {
        let OrderedBars { drawing, order } = *self;
        drawing.map.facts();
        for h in 0..drawing.map.n() {
            let v = VertexId(order[h as usize]);
            if !stands_at(drawing.fig, drawing.map.n(), h, v) {
                return;
            }
            let bar = Bar { drawing, h, v };
            bar.mark_list(tops, clear);
            bar.put_top(tops);
        }
    }
}
