//! A quick test that no triangle of edges separates, by the lists alone: common neighbours stand next to an edge's end.
ghost use Rattle.std.specs.Prelude.{◌≡◌, ◌≢◌, ◌<◌, ◌↔◌, ◌+◌, ◌⊎◌, ℕ, length, All, AllPairs, slice_index, IsTrue, IfOk};
ghost use Rattle.std.specs.Bool.{OnTrue};
ghost use Rattle.map_theory.specs.Maps.{HasDart, IsSimpleMap, list_of, entry_after};
ghost use Rattle.drawings.specs.Frames.{IsFrame};
ghost use Rattle.rect_class.specs.RectMaps.{HasTriangles, NoneSeparating};
ghost use Rattle.rect_class.specs.Corners.{IsSide, IsClosedOver, AreClosed, ComesBefore, HasDiagonal};

use crate::cyclic_lists::Ring;
use crate::upper_neighbours::has_upper;
use drawings::OuterFour;
use half_edges::{Rotations, VertexId};
use std::alloc::{AllocError, Global};

// Sets to `stamp` the entry in `marks`, which has one for each vertex, of each vertex of the list `us`.
fn stamp_all(marks: &mut Vec<u16>, us: &[u16], stamp: u16)
    requires { All (λ u. u < length marks.old.items) us.now }
    ensures length { length marks.new.items ≡ length marks.old.items }
    ensures stamped { (k : ℕ) → k < length us.now → slice_index marks.new.items (slice_index us.now k) ≡ stamp }
{
    for u in us {
        marks[usize::from(*u)] = stamp;
    }
}

// A vertex `v` whose neighbours are marked by its stamp, v + 1, with the lists, degrees and marks of all vertices.
#[derive(Clone, Copy)]
struct Star<'a> {
    lists: &'a Rotations,
    degrees: &'a [usize],
    marks: &'a [u16],
    v: u16,
    ghost few: { length lists.now < 4096 },
    ghost in_range: { (x u : ℕ) → HasDart lists.now x u → u < length lists.now },
    ghost distinct: { (x : ℕ) → x < length lists.now → AllPairs ◌≢◌ (list_of lists.now x) },
    ghost all_degrees: { length degrees.now ≡ length lists.now },
    ghost all_marks: { length marks.now ≡ length lists.now },
    ghost vertex: { v < length lists.now },
    ghost stamped: { (j : ℕ) → j < length (list_of lists.now v) → slice_index marks.now (slice_index (list_of lists.now v) j) ≡ v + 1 },
}

impl Star<'_> {
    // Says whether the vertex `v` comes after `u` in the order by degree and then by number.
    fn comes_after(&self, u: u16) -> bool
        requires { u < length self.now.lists.now }
        ensures { IsTrue result ↔ ComesBefore self.now.degrees.now u self.now.v }
    {
        let first = self.degrees[usize::from(u)];
        let second = self.degrees[usize::from(self.v)];
        first < second || (first == second && u < self.v)
    }

    // Says whether each neighbour of `v` in `ws`, known by its mark, is `last` or `next`. Only a yes is promised.
    fn are_sides(&self, ws: &[u16], last: u16, next: u16) -> bool
        requires { All (λ w. w < length self.now.marks.now) ws.now }
        ensures { OnTrue result ((k : ℕ) → k < length ws.now → IsSide self.now.marks.now (self.now.v + 1) last next (slice_index ws.now k)) }
    {
        let marks = self.marks;
        let stamp = self.v + 1;
        for w in ws {
            if marks[usize::from(*w)] == stamp && *w != last && *w != next {
                return false;
            }
        }
        true
    }

    // Says whether entry `k` of the list of `v` comes after `v` by degree and number, or stands next to each common
    // neighbour of both in that list. Only a yes is promised.
    fn is_closed_over(&self, k: usize) -> bool
        requires { k < length (list_of self.now.lists.now self.now.v) }
        ensures { OnTrue result (ComesBefore self.now.degrees.now (slice_index (list_of self.now.lists.now self.now.v) k) self.now.v
            → IsClosedOver self.now.lists.now self.now.v (slice_index (list_of self.now.lists.now self.now.v) k)) }
    {
        let us = self.lists.list(usize::from(self.v));
        let u = us[k];
        if !self.comes_after(u) {
            return true;
        }
        let ring = Ring { us };
        let (last, next) = (ring.previous_at(k), ring.next_at(k));
        self.are_sides(self.lists.list(usize::from(u)), last, next)
    }

    // Says whether `is_closed_over` holds for all entries of the list of `v`. Only a yes is promised.
    fn is_closed(&self) -> bool
        ensures { OnTrue result ((k : ℕ) → k < length (list_of self.now.lists.now self.now.v) → ComesBefore self.now.degrees.now (slice_index (list_of self.now.lists.now self.now.v) k) self.now.v
            → IsClosedOver self.now.lists.now self.now.v (slice_index (list_of self.now.lists.now self.now.v) k)) }
    {
        let star = *self;
        for k in 0..star.lists.list(usize::from(star.v)).len() {
            if !star.is_closed_over(k) {
                return false;
            }
        }
        true
    }
}

// Returns the degrees of all vertices. It fails only when out of memory.
fn all_degrees(alloc: Global, lists: &Rotations) -> Result<Vec<usize>, AllocError>
    ensures { IfOk result (λ degrees. length degrees.items ≡ length lists.now) }
{
    let mut degrees = vec![in alloc; 0usize; lists.len()]?;
    for v in 0..lists.len() {
        degrees[v] = lists.list(v).len();
    }
    Ok(degrees)
}

// Says whether for each edge the common neighbours of its ends stand next to one end in the list of the other. Only a
// yes is promised. It fails only when out of memory.
pub(crate) fn are_closed(alloc: Global, lists: &Rotations) -> Result<bool, AllocError>
    requires simple { IsSimpleMap lists.now }
    ensures { IfOk result (λ closed. OnTrue closed (AreClosed lists.now)) }
{
    let degrees = all_degrees(alloc, lists)?;
    let mut marks = vec![in alloc; 0u16; lists.len()]?;
    for v in 0..(lists.len() as u16) {
        stamp_all(&mut marks, lists.list(usize::from(v)), v + 1);
        let star = Star {
            lists,
            degrees: &degrees,
            marks: &marks,
            v,
        };
        if !star.is_closed() {
            return Ok(false);
        }
    }
    Ok(true)
}

// Says whether an edge joins two opposite vertices of the outer face `four`.
pub(crate) fn has_diagonal(lists: &Rotations, four: OuterFour) -> bool
    requires first { 0 < length lists.now }
    requires top { four.top.0 < length lists.now }
    ensures { IsTrue result ↔ HasDiagonal lists.now 0 four.top.0 four.right.0 four.bottom.0 }
{
    has_upper(lists, VertexId(0), four.right) || has_upper(lists, four.top, four.bottom)
}

/// Says whether `lists`, with outer face `four` and triangles inside, show at once that no triangle of edges separates.
/// `false` leaves it open.
///
/// For each edge it goes over the shorter of two lists, so that its time is linear. It fails only when out of memory.
pub(crate) fn none_separates(
    alloc: Global,
    lists: &Rotations,
    four: OuterFour,
) -> Result<bool, AllocError>
    requires simple { IsSimpleMap lists.now }
    requires frame { IsFrame lists.now four.top.0 four.right.0 four.bottom.0 }
    requires faces { HasTriangles lists.now }
    ensures { IfOk result (λ none. OnTrue none (NoneSeparating lists.now)) }
{
    if has_diagonal(lists, four) {
        return Ok(false);
    }
    are_closed(alloc, lists)
}
