//! The index of an edge, by its lesser end and then its greater one, and the column of an edge by that index.
ghost use Rattle.std.specs.Prelude.{◌≡◌, ◌+◌, ◌*◌, ◌<◌, ◌≤◌, ◌&&◌, nat_lt, ℕ, List, length, take, count_by, slice_index, Some};
ghost use Rattle.map_theory.specs.Maps.{list_of};
ghost use Rattle.half_edges.specs.Map.{dart_at, first_dart};
ghost use Rattle.drawings.specs.Bars.{number_at, edges_until as the_edges_until, edges_before as the_edges_before, column_of as the_column, column_between as the_column_between};

use crate::drawing::BarDrawing;
use crate::heights_and_bars::entry_or_zero;
use half_edges::{HalfMap, VertexId};
use vertex_rounds::later_dart;

// Returns how many edges lead from `v` to vertices above `v` and below `end`.
fn edges_until(map: &HalfMap, v: VertexId, end: u16) -> u32
    requires vertex { v.0 < length map.now.lists }
    ensures count { result ≡ the_edges_until map.now.lists v.0 end }
    ensures few { result ≤ 65535 }
{
    let degree = map.degree(v);
    let Some(first) = map.first_dart(v) else {
        return 0;
    };
    let mut count = 0;
    let mut d = first;
    'round: loop {
        let u = map.head(d);
        if v.0 < u.0 && u.0 < end {
            count += 1;
        }
        match later_dart(map, d) {
            Some(next) => d = next,
            None => return count,
        }
    }
}

// Returns how many edges have a lesser end up to `v`, where `before` of them have it below `v`.
pub(crate) fn edges_with(map: &HalfMap, v: VertexId, before: u32) -> u32
    requires vertex { v.0 < length map.now.lists }
    requires before { before ≡ the_edges_before map.now.lists v.0 }
    requires few { before ≤ 65535 * v.0 }
    ensures count { result ≡ the_edges_before map.now.lists (v.0 + 1) }
    ensures few { result ≤ 65535 * (v.0 + 1) }
{
    before + edges_until(map, v, map.n())
}

// Returns how many edges have their lesser end below `v`.
fn edges_before(map: &HalfMap, v: VertexId) -> u32
    requires vertex { v.0 < length map.now.lists }
    ensures count { result ≡ the_edges_before map.now.lists v.0 }
    ensures few { result ≤ 65535 * v.0 }
{
    let mut count = 0;
    for u in 0..v.0 {
        count = edges_with(map, VertexId(u), count);
    }
    count
}

impl BarDrawing<'_> {
    // Returns the column of the edge from `a` to `b`, its greater end; `before` edges have their lesser end below `a`.
    pub(crate) fn column_from(&self, before: u32, a: VertexId, b: VertexId) -> i32
        requires vertex { a.0 < length self.now.map.now.lists }
        requires before { before ≡ the_edges_before self.now.map.now.lists a.0 }
        requires few { before ≤ 65535 * a.0 }
        ensures { result ≡ the_column self.now.map.now.lists self.now.fig.now a.0 b.0 }
    {
        let edge = before + edges_until(self.map, a, b.0);
        entry_or_zero(&self.fig.column, edge as usize)
    }

    // Returns the column of the edge from `a` to `b`, its greater end, by counting all edges before it.
    pub(crate) fn column_of(&self, a: VertexId, b: VertexId) -> i32
        requires vertex { a.0 < length self.now.map.now.lists }
        ensures { result ≡ the_column self.now.map.now.lists self.now.fig.now a.0 b.0 }
    {
        self.column_from(edges_before(self.map, a), a, b)
    }

    // Returns the column of the edge between `u` and `v`.
    pub(crate) fn column_between(&self, u: VertexId, v: VertexId) -> i32
        requires u { u.0 < length self.now.map.now.lists }
        requires v { v.0 < length self.now.map.now.lists }
        ensures { result ≡ the_column_between self.now.map.now.lists self.now.fig.now u.0 v.0 }
    {
        if u.0 < v.0 {
            self.column_of(u, v)
        } else {
            self.column_of(v, u)
        }
    }
}
