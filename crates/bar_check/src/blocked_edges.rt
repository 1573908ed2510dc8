//! Edges that a bar blocks: finds the first edge with a bar in its way, and the least vertex of such a bar.
ghost use Rattle.std.specs.Prelude.{◌*◌, ◌<◌, ◌≤◌, ◌↔◌, ℕ, length, IsTrue, Some, MatchOption};
ghost use Rattle.half_edges.specs.Map.{IsLive};
ghost use Rattle.vertex_rounds.specs.Least.{IsLeast, IsLeastPair, IsLeastTriple};
ghost use Rattle.vertex_rounds.specs.Rounds.{HoldsAt};
ghost use Rattle.drawings.specs.Bars.{number_at, IsBetween, IsStruck};
ghost use Rattle.bar_check.specs.Faults.{GoesThrough};
ghost use Rattle.bar_check.specs.Verdicts.{NoneThrough};
ghost use Rattle.bar_check.specs.Loops.{IsStruckBelow, IsBlockedFrom, IsBlockedEdge};
ghost use Rattle.bar_check.specs.Tables.{AreClear};

use crate::drawing::{BarDrawing, LesserEnd};
use crate::edge_indices::edges_with;
use crate::exact_sweep::is_clear;
use crate::heights_and_bars::{entry_or_zero, holds};
use half_edges::{DartId, Ends, VertexId};
use pg_plane::BarFigure;
use vertex_rounds::least_head;

// Says whether the height of `v` lies strictly between those of `a` and `b`.
fn is_between(fig: &BarFigure, a: VertexId, b: VertexId, v: VertexId) -> bool
    ensures { IsTrue result ↔ IsBetween (number_at fig.now.y a.0) (number_at fig.now.y b.0) (number_at fig.now.y v.0) }
{
    let p = entry_or_zero(&fig.y, a.0 as usize);
    let q = entry_or_zero(&fig.y, b.0 as usize);
    let z = entry_or_zero(&fig.y, v.0 as usize);
    (p < z && z < q) || (q < z && z < p)
}

// Says whether the bar of `v` is in the way of edge `e` in column `x`: it holds `x` strictly between the ends.
fn is_struck(fig: &BarFigure, e: Ends, x: i32, v: VertexId) -> bool
    ensures { IsTrue result ↔ IsStruck fig.now e.a.0 e.b.0 x v.0 }
{
    is_between(fig, e.a, e.b, v) && holds(fig, v, x)
}

// Returns the least vertex below `n` whose bar is in the way of edge `e`, which stands in column `x`, or `None`.
fn first_struck(fig: &BarFigure, n: u16, e: Ends, x: i32) -> Option<VertexId>
    ensures { MatchOption result ((v : ℕ) → ¬ IsStruckBelow n fig.now e.a.0 e.b.0 x v)
        (λ v. IsLeast (IsStruckBelow n fig.now e.a.0 e.b.0 x) v.0) }
{
    for v in 0..n {
        if is_struck(fig, e, x, VertexId(v)) {
            return Some(VertexId(v));
        }
    }
    None
}

impl LesserEnd<'_> {
    // Says whether dart `d` leads from the lesser end to a greater vertex, and some bar is in the way of its edge.
    fn leads_to_blocked(&self, d: DartId) -> bool
        requires live { IsLive self.now.drawing.map.now d.0 }
        ensures { IsTrue result ↔ HoldsAt self.now.drawing.map.now (IsBlockedFrom self.now.drawing.map.now.lists self.now.drawing.fig.now self.now.a.0) d.0 }
    {
        let map = self.drawing.map;
        let b = map.head(d);
        if map.tail(d).0 != self.a.0 || b.0 <= self.a.0 {
            return false;
        }
        if is_clear(map, self.clear, d) {
            return false;
        }
        let x = self.column_to(b, d);
        match first_struck(self.drawing.fig, map.n(), Ends { a: self.a, b }, x) {
            Some(_) => true,
            None => false,
        }
    }
}

impl BarDrawing<'_> {
    // Returns the first edge with a bar in its way, or `None`. An edge with a mark at a dart in `clear` has none.
    fn first_blocked(&self, clear: &[bool]) -> Option<Ends>
        requires clear { AreClear self.now.map.now self.now.fig.now clear.now }
        ensures { MatchOption result ((a b : ℕ) → ¬ IsBlockedEdge self.now.map.now.lists self.now.fig.now a b)
            (λ e. IsLeastPair (IsBlockedEdge self.now.map.now.lists self.now.fig.now) e.a.0 e.b.0) }
    {
        let drawing = *self;
        let mut before = 0;
        for a in 0..drawing.map.n() {
            let a = VertexId(a);
            let end = LesserEnd {
                drawing,
                clear,
                a,
                before,
            };
            if let Some(b) = least_head(drawing.map, a, |d| end.leads_to_blocked(d)) {
                return Some(Ends { a, b });
            }
            before = edges_with(drawing.map, a, before);
        }
        None
    }

    // Returns the first edge with a bar in its way and the least such vertex, or `None`. `clear` marks edges with none.
    pub(crate) fn first_through(&self, clear: &[bool]) -> Option<(Ends, VertexId)>
        requires clear { AreClear self.now.map.now self.now.fig.now clear.now }
        ensures { MatchOption result (NoneThrough self.now.map.now.lists self.now.fig.now)
            (λ p. IsLeastTriple (GoesThrough self.now.map.now.lists self.now.fig.now) p.0.a.0 p.0.b.0 p.1.0) }
    {
        match self.first_blocked(clear) {
            Some(e) => match first_struck(self.fig, self.map.n(), e, self.column_of(e.a, e.b)) {
                Some(v) => Some((e, v)),
                None => None,
            },
            None => None,
        }
    }
}
