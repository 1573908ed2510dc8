//! A table of the column of each edge, at the ids of its darts, and the first edge whose column is out of range.
ghost use Rattle.std.specs.Prelude.{◌≡◌, ◌≢◌, ◌⊎◌, ◌+◌, ◌*◌, ◌<◌, ◌≤◌, ℕ, length, slice_set, Some, MatchOption};
ghost use Rattle.map_theory.specs.Maps.{list_of, place_of};
ghost use Rattle.half_edges.specs.Map.{IsLive, dart_at, first_dart};
ghost use Rattle.vertex_rounds.specs.Least.{IsLeastPair};
ghost use Rattle.vertex_rounds.specs.Rounds.{dart_of};
ghost use Rattle.drawings.specs.Bars.{number_at, IsColumn, column_of as the_column, column_between as the_column_between};
ghost use Rattle.bar_check.specs.Faults.{HasBadColumn};
ghost use Rattle.bar_check.specs.Verdicts.{NoBadColumn};
ghost use Rattle.bar_check.specs.Tables.{AreColumns, AreFilled, IsFirstMetBad};
ghost use Rattle.drawings.specs.NextEdges.{AreNext};

use crate::drawing::{BarDrawing, Bars, GreaterEnd, LesserEnd};
use crate::edge_indices::edges_with;
use crate::heights_and_bars::entry_or_zero;
use half_edges::{DartId, Ends, VertexId};
use vertex_rounds::later_dart;

// Writes column `x` into `columns` at dart `d`, if the table has an entry for it.
fn put_column(columns: &mut [i32], d: DartId, x: i32)
    ensures size { length columns.new ≡ length columns.old }
    ensures here { d.0 < length columns.new → number_at columns.new d.0 ≡ x }
    ensures elsewhere { (e : ℕ) → e ≢ d.0 → number_at columns.new e ≡ number_at columns.old e }
{
    if (d.0 as usize) < columns.len() {
        columns[d.0 as usize] = x;
    }
}

impl GreaterEnd<'_> {
    // Writes the column of the edge of `d` into `columns` at both its darts, where `d` leads to a lesser vertex. `next`
    // has for each vertex the index of its next edge to a greater one, and is advanced.
    fn put_edge(&self, next: &mut [u32], columns: &mut [i32], d: DartId)
        requires live { IsLive self.now.bars.map.now d.0 }
        requires tail { (dart_of self.now.bars.map.now d.0).0 ≡ self.now.b.0 }
        requires filled { AreFilled self.now.bars.map.now self.now.bars.fig.now self.now.b.0 (place_of (dart_of self.now.bars.map.now d.0).1 (list_of self.now.bars.map.now.lists self.now.b.0)) next.old columns.old }
        ensures { AreFilled self.now.bars.map.now self.now.bars.fig.now self.now.b.0 (place_of (dart_of self.now.bars.map.now d.0).1 (list_of self.now.bars.map.now.lists self.now.b.0) + 1) next.new columns.new }
    {
        let map = self.bars.map;
        let a = map.head(d);
        if a.0 < self.b.0 {
            let edge = next[a.0 as usize];
            next[a.0 as usize] = edge + 1;
            let x = entry_or_zero(&self.bars.fig.column, edge as usize);
            put_column(columns, d, x);
            put_column(columns, map.twin(d), x);
        }
    }

    // Returns `found`, the first edge so far with a column outside the width or an end's bar, or that of dart `d`, if
    // it is such a one and earlier. `next` has for each vertex the index of its next edge to a greater one.
    fn with_next(&self, next: &[u32], found: Option<Ends>, d: DartId) -> Option<Ends>
        requires live { IsLive self.now.bars.map.now d.0 }
        requires tail { (dart_of self.now.bars.map.now d.0).0 ≡ self.now.b.0 }
        requires vertices { length next.now ≡ length self.now.bars.map.now.lists }
        requires numbers { AreNext self.now.bars.map.now.lists self.now.b.0 (place_of (dart_of self.now.bars.map.now d.0).1 (list_of self.now.bars.map.now.lists self.now.b.0)) next.now }
        requires found { IsFirstMetBad self.now.bars.map.now.lists self.now.bars.fig.now self.now.bars.width self.now.b.0 (place_of (dart_of self.now.bars.map.now d.0).1 (list_of self.now.bars.map.now.lists self.now.b.0)) found }
        ensures { IsFirstMetBad self.now.bars.map.now.lists self.now.bars.fig.now self.now.bars.width self.now.b.0 (place_of (dart_of self.now.bars.map.now d.0).1 (list_of self.now.bars.map.now.lists self.now.b.0) + 1) result }
    {
        let bars = self.bars;
        let a = bars.map.head(d);
        if self.b.0 <= a.0 {
            return found;
        }
        let x = entry_or_zero(&bars.fig.column, next[a.0 as usize] as usize);
        if bars.is_column(a, self.b, x) {
            return found;
        }
        match found {
            Some(e) if e.a.0 <= a.0 => found,
            _ => Some(Ends { a, b: self.b }),
        }
    }

    // Writes into `columns` the columns of this vertex's edges to lesser ones, advancing `next`. Returns the first edge
    // so far with a column outside the width or an end's bar, or `None`. `found` is that of lesser vertices.
    fn put_list(&self, next: &mut [u32], columns: &mut [i32], found: Option<Ends>) -> Option<Ends>
        requires filled { AreFilled self.now.bars.map.now self.now.bars.fig.now self.now.b.0 0 next.old columns.old }
        requires found { IsFirstMetBad self.now.bars.map.now.lists self.now.bars.fig.now self.now.bars.width self.now.b.0 0 found }
        ensures filled { AreFilled self.now.bars.map.now self.now.bars.fig.now (self.now.b.0 + 1) 0 next.new columns.new }
        ensures found { IsFirstMetBad self.now.bars.map.now.lists self.now.bars.fig.now self.now.bars.width (self.now.b.0 + 1) 0 result }
    {
        let end = *self;
        let Some(first) = end.bars.map.first_dart(end.b) else {
            return found;
        };
        let mut bad = found;
        let mut d = first;
        'round: loop {
            bad = end.with_next(next, bad, d);
            end.put_edge(next, columns, d);
            match later_dart(end.bars.map, d) {
                Some(later) => d = later,
                None => return bad,
            }
        }
    }
}

impl Bars<'_> {
    // Writes the column of each edge into `columns` at both its darts' ids. Returns the first edge whose column leaves
    // the width or the bar of an end, or `None`. `next` is scratch space, one entry for each vertex.
    pub(crate) fn fill_columns(&self, next: &mut [u32], columns: &mut [i32]) -> Option<Ends>
        requires vertices { length next.old ≡ length self.now.map.now.lists }
        ensures size { length columns.new ≡ length columns.old }
        ensures columns { AreColumns self.now.map.now self.now.fig.now columns.new }
        ensures bad { MatchOption result (NoBadColumn self.now.map.now.lists self.now.fig.now self.now.width)
            (λ e. IsLeastPair (HasBadColumn self.now.map.now.lists self.now.fig.now self.now.width) e.a.0 e.b.0) }
    {
        let bars = *self;
        let mut before = 0;
        for v in 0..bars.map.n() {
            next[v as usize] = before;
            before = edges_with(bars.map, VertexId(v), before);
        }
        let mut bad = None;
        for b in 0..bars.map.n() {
            bad = GreaterEnd {
                bars,
                b: VertexId(b),
            }
            .put_list(next, columns, bad);
        }
        bad
    }
}

impl LesserEnd<'_> {
    // Returns the column of the edge of dart `d` to `b`, its greater end, from the table or by its index.
    pub(crate) fn column_to(&self, b: VertexId, d: DartId) -> i32
        requires dart { dart_at self.now.drawing.map.now d.0 ≡ Some (self.now.a.0, b.0) }
        requires order { self.now.a.0 < b.0 }
        ensures { result ≡ the_column self.now.drawing.map.now.lists self.now.drawing.fig.now self.now.a.0 b.0 }
    {
        let drawing = self.drawing;
        if (d.0 as usize) < drawing.columns.len() {
            drawing.columns[d.0 as usize]
        } else {
            drawing.column_from(self.before, self.a, b)
        }
    }
}

impl BarDrawing<'_> {
    // Returns the column of the edge of dart `d`, from the table or by its index.
    pub(crate) fn column_at(&self, d: DartId) -> i32
        requires live { IsLive self.now.map.now d.0 }
        ensures { result ≡ the_column_between self.now.map.now.lists self.now.fig.now (dart_of self.now.map.now d.0).0 (dart_of self.now.map.now d.0).1 }
    {
        if (d.0 as usize) < self.columns.len() {
            self.columns[d.0 as usize]
        } else {
            self.column_between(self.map.tail(d), self.map.head(d))
        }
    }
}
