//! Each vertex's row in a canonical order: the contour interval that it covers, as ranks, read off the neighbour lists.
ghost use Rattle.std.specs.Prelude.{vec_len, vec_capacity, ◌≡◌, ◌<◌, ◌≤◌, ◌+◌, ◌^◌, ◌↔◌, ◌⊎◌, ℕ, List, length, map, slice_index, All, IsTrue, IfOk};
ghost use Rattle.map_theory.specs.Maps.{Dart, list_of};
ghost use Rattle.plane_laws.specs.Triangulations.{IsTriangulation};
ghost use Rattle.canon_order.specs.Orders.{IsCanonicalOrder, vertices_of};
ghost use Rattle.order_drawings.specs.Rows.{place_before, place_after, IsFirstPlace, IsRowIn, IsRowPut, AreRanked, AreRowsOf};

use crate::order_tables::ranked_lists::RankedList;
use canon_order::Order;
use half_edges::{Counts, HalfMap, Rotations, VertexList};
use std::alloc::{AllocError, Global};

// Returns the index before `i` in a list of `n` entries, cyclically.
fn before(n: usize, i: usize) -> usize
    requires { i < n }
    ensures place { result ≡ place_before n i }
    ensures within { result < n }
{
    if i == 0 { n - 1 } else { i - 1 }
}

// Returns the index after `i` in a list of `n` entries, cyclically.
fn after(n: usize, i: usize) -> usize
    requires { i < n }
    ensures place { result ≡ place_after n i }
    ensures within { result < n }
{
    if i + 1 < n { i + 1 } else { 0 }
}

// Says whether a vertex's row (the contour interval under it) ends at an entry of this `rank` in its list. `k` is the
// rank of the vertex, and `before` that of the entry before.
fn is_last(rank: u32, before: u32, k: u32) -> bool
    ensures { IsTrue result ↔ ((rank ≡ 1) ⊎ (k ≤ before)) }
{
    rank == 1 || k <= before
}

impl RankedList<'_> {
    // Says whether the row (the contour interval under the vertex) begins at index `i` of the vertex's list.
    fn is_first(&self, i: usize) -> bool
        requires { i < length self.now.list.now }
        ensures { IsTrue result ↔ IsFirstPlace self.now.list.now self.now.ranks.now self.now.k i }
    {
        let rank = self.rank(i);
        let place = after(self.list.len(), i);
        let next = self.rank(place);
        rank < self.k && (rank == 0 || self.k <= next)
    }

    // Returns the index in the list at which the row begins: before an entry of a later rank, if there is one. Where
    // there is none, the vertex is the last, and each index is tested.
    #[inline(always)]
    fn first_place(&self) -> usize
        requires { 0 < length self.now.list.now }
        ensures place { (start : ℕ) (us : List ℕ) → IsRowIn self.now.list.now self.now.ranks.now self.now.k start us → result ≡ start }
        ensures within { result < length self.now.list.now }
    {
        let ranked = *self;
        let first = ranked.first_earlier(0);
        if first < ranked.list.len() {
            let end = ranked.first_later(first + 1);
            if end < ranked.list.len() {
                return end - 1;
            }
            if 0 < first {
                return ranked.list.len() - 1;
            }
        }
        for i in 0..ranked.list.len() {
            if ranked.is_first(i) {
                return i;
            }
        }
        0
    }

    // Appends to `entries`, which has room, the ranks of the vertex's row, backwards in the list from index `start` on.
    #[inline(always)]
    fn put_row(&self, entries: &mut Vec<u16>, start: usize)
        requires start { start < length self.now.list.now }
        requires few { (u : ℕ) → slice_index self.now.ranks.now u < 2 ^ 16 }
        requires room { vec_len entries.old + length self.now.list.now ≤ vec_capacity entries.old }
        ensures { IsRowPut self.now.list.now self.now.ranks.now self.now.k start entries.old.items entries.new.items }
    {
        let ranked = *self;
        let mut i = start;
        let mut rank = ranked.rank(start);
        for _count in 0..ranked.list.len() {
            entries.push_reserved(rank as u16);
            let place = before(ranked.list.len(), i);
            let next = ranked.rank(place);
            if is_last(rank, next, ranked.k) {
                return;
            }
            i = place;
            rank = next;
        }
    }
}

// Returns the rows (contour intervals under a vertex, as ranks) of the third and later vertices of the order `at`, in
// the memory of `spent`. `lists` has their neighbours, at least one; `ranks` has indices in `at`. Fails only when out
// of memory.
#[inline(always)]
fn listed_rows(
    spent: Rotations,
    lists: &Rotations,
    at: &VertexList,
    ranks: &Counts,
) -> Result<Rotations, AllocError>
    requires many { 2 ≤ length at.now }
    requires size { length at.now < 4096 }
    requires at { All (λ v. v.0 < length lists.now) at.now }
    requires some { (k : ℕ) → 2 ≤ k → k < length at.now → 0 < length (list_of lists.now (slice_index (map (λ v. v.0) at.now) k)) }
    requires vertices { (v : ℕ) → v < length lists.now → All (λ u. u < length ranks.now) (list_of lists.now v) }
    requires few { (u : ℕ) → slice_index ranks.now u < 2 ^ 16 }
    ensures count { IfOk result (λ rows. length rows + 2 ≡ length at.now) }
    ensures rows { IfOk result (λ rows. AreRanked lists.now (map (λ v. v.0) at.now) ranks.now rows) }
{
    let (mut entries, mut ends) = spent.into_parts();
    entries.clear();
    entries.reserve(lists.total())?;
    ends.clear();
    ends.reserve(at.len())?;
    for k in 2..at.len() {
        let list = lists.list(at.get(k).0 as usize);
        let row = RankedList {
            list,
            ranks,
            k: k as u32,
        };
        let start = row.first_place();
        entries.reserve(list.len())?;
        row.put_row(&mut entries, start);
        ends.push_reserved(entries.len());
    }
    Ok(Rotations::from_parts(entries, ends))
}

/// Returns for each vertex of the canonical `order` of the triangulation `tri`, from the third on, its row: the contour
/// interval under it. A row names vertices by their ranks, from the first one under the new vertex to the last.
///
/// Fails only when out of memory. The map and the order stay as they are. The time is linear in the map's entries.
pub fn order_rows(alloc: Global, tri: &HalfMap, order: &Order) -> Result<Rotations, AllocError>
    requires triangulation { IsTriangulation tri.now.lists }
    requires order { (base : Dart) × IsCanonicalOrder tri.now.lists base (vertices_of order.now) }
    ensures { IfOk result (AreRowsOf tri.now.lists (vertices_of order.now)) }
{
    let lists = tri.rotations(alloc)?;
    let rows = rows_into(Rotations::new(alloc), &lists, order)?;
    Ok(rows)
}

/// Returns the rows (contour intervals) of `order` as [`order_rows`] does, by the map's `lists`, in memory of `spent`.
#[inline(always)]
pub fn rows_into(
    spent: Rotations,
    lists: &Rotations,
    order: &Order,
) -> Result<Rotations, AllocError>
    requires triangulation { IsTriangulation lists.now }
    requires order { (base : Dart) × IsCanonicalOrder lists.now base (vertices_of order.now) }
    ensures { IfOk result (AreRowsOf lists.now (vertices_of order.now)) }
{
    lists.facts();
    canon_order::row_ends();
    crate::order_runs::order_is_run();
    let rows = listed_rows(spent, lists, &order.at, &order.rank)?;
    Ok(rows)
}
