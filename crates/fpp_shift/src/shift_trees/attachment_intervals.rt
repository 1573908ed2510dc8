//! Attachment intervals of a canonical order: the first and the last contour vertex under a vertex, by its darts.
ghost use Rattle.std.specs.Prelude.{◌≡◌, ◌<◌, ◌≤◌, ◌⊎◌, ◌↔◌, ℕ, length, slice_index, IsTrue, Some};
ghost use Rattle.map_theory.specs.Maps.{list_of};
ghost use Rattle.half_edges.specs.Map.{IsLive, dart_at, first_dart};
ghost use Rattle.fpp_shift.specs.ShiftTreesRows.{BeginsRow, EndsRow, OrderHasRows};

use half_edges::{Counts, DartId, HalfMap, VertexId};

/// States the law that the attachment interval of each vertex of a canonical order, from the third on, begins and ends
/// at just one neighbour. These are the first and the last vertex of a step of the construction sequence.
pub(crate) fn order_has_rows()
    ensures { OrderHasRows }
{
    canon_order::row_ends();
}

/// A half-edge map, and for each vertex its rank in a canonical order: its index there, from 0.
#[derive(Clone, Copy)]
pub(crate) struct OrderedMap<'a> {
    pub(crate) map: &'a HalfMap,
    pub(crate) ranks: &'a Counts,
    pub(crate) ghost ranked: { length ranks.now ≡ length map.now.lists },
}

// Says whether a neighbour of rank `rank` is an end of the attachment interval of a vertex of rank `k`. It is if its
// rank is below `k`, and is `base` (0 or 1, an end of the base) or has a later neighbour beside it, of rank `beside`.
fn is_end(rank: u32, beside: u32, k: u32, base: u32) -> bool
    ensures { IsTrue result ↔ ((rank < k) × ((rank ≡ base) ⊎ (k ≤ beside))) }
{
    rank < k && (rank == base || k <= beside)
}

// Returns the first dart of `v` in `map`. It must have neighbours.
fn some_dart(map: &HalfMap, v: VertexId) -> DartId
    requires vertex { v.0 < length map.now.lists }
    requires some { 0 < length (list_of map.now.lists v.0) }
    ensures { dart_at map.now result.0 ≡ Some (first_dart map.now.lists v.0) }
{
    match map.first_dart(v) {
        Some(d) => d,
        None => unreachable!(),
    }
}

impl OrderedMap<'_> {
    // Returns the rank, in the canonical order, of the vertex to which `d` leads.
    fn head_rank(&self, d: DartId) -> u32
        requires { IsLive self.now.map.now d.0 }
        ensures { (v u : ℕ) → dart_at self.now.map.now d.0 ≡ Some (v, u) → result ≡ slice_index self.now.ranks.now u }
    {
        self.ranks.get(self.map.head(d).0 as usize)
    }

    /// Returns the first earlier neighbour along the contour of `v`, of rank `k`, by one round of the darts of `v`.
    #[inline(always)]
    pub(crate) fn interval_begin(&self, v: VertexId, k: u32) -> VertexId
        requires vertex { v.0 < length self.now.map.now.lists }
        requires begins { (p : ℕ) × BeginsRow self.now.map.now.lists self.now.ranks.now k v.0 p }
        ensures { BeginsRow self.now.map.now.lists self.now.ranks.now k v.0 result.0 }
    {
        let mut d = some_dart(self.map, v);
        for _ in 0..self.map.degree(v) {
            let rank = self.head_rank(d);
            let after = self.map.next(d);
            let rank_after = self.head_rank(after);
            if is_end(rank, rank_after, k, 0) {
                return self.map.head(d);
            }
            d = after;
        }
        unreachable!()
    }

    /// Returns the last earlier neighbour along the contour of `v`, of rank `k`, by one round of the darts of `v`.
    #[inline(always)]
    pub(crate) fn interval_end(&self, v: VertexId, k: u32) -> VertexId
        requires vertex { v.0 < length self.now.map.now.lists }
        requires ends { (q : ℕ) × EndsRow self.now.map.now.lists self.now.ranks.now k v.0 q }
        ensures { EndsRow self.now.map.now.lists self.now.ranks.now k v.0 result.0 }
    {
        let mut d = some_dart(self.map, v);
        for _ in 0..self.map.degree(v) {
            let rank = self.head_rank(d);
            let before = self.map.prev(d);
            let rank_before = self.head_rank(before);
            if is_end(rank, rank_before, k, 1) {
                return self.map.head(d);
            }
            d = self.map.next(d);
        }
        unreachable!()
    }
}
