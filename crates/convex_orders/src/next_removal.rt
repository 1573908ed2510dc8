//! Chooses the vertex of the contour that is removed next, with its faces.
ghost use Rattle.std.specs.Prelude.{◌≡◌, ◌+◌, ◌<◌, ◌≤◌, ◌↔◌, ℕ, suc, true, false, length, slice_index, IsTrue, IfOk};
ghost use Rattle.map_theory.specs.Maps.{list_of};
ghost use Rattle.convex_orders.specs.Contours.{vertices_of, AreWithin};
ghost use Rattle.convex_orders.specs.Moved.{HaveSize};
ghost use Rattle.convex_orders.specs.Splits.{IsOpenAt, NoneSplit, AreRowsBelow, IsRemovableRow, IsRemovablePlace};

use crate::contour::Contour;
use crate::contour_counts::ContourCounts;
use crate::remaining_faces::Marked;
use std::alloc::AllocError;

// Says whether some edge of a vertex has both faces removed. `own` and `other` number the faces on its two sides, and
// `marks` says of each face number whether the face is left.
fn is_open(own: &[u32], other: &[u32], marks: &[bool]) -> bool
    requires rows { AreRowsBelow own.now other.now (length marks.now) }
    ensures { IsTrue result ↔ ((k : ℕ) × IsOpenAt own.now other.now marks.now k) }
{
    for k in 0..own.len() {
        if !marks[own[k] as usize] && !marks[other[k] as usize] {
            return true;
        }
    }
    false
}

// Says whether each marked face of `own` meets the contour in one interval: at one vertex more than it has edges there.
// `places` and `edges` have these counts by face number.
fn none_split(own: &[u32], marks: &[bool], places: &[u16], edges: &[u16]) -> bool
    requires own_in { (k : ℕ) → k < length own.now → slice_index own.now k < length marks.now }
    requires places { length places.now ≡ length marks.now }
    requires edges { length edges.now ≡ length marks.now }
    ensures { IsTrue result ↔ NoneSplit own.now marks.now places.now edges.now }
{
    for k in 0..own.len() {
        let f = own[k] as usize;
        if marks[f] && u32::from(places[f]) != u32::from(edges[f]) + 1 {
            return false;
        }
    }
    true
}

/// What decides which vertices of a contour may be removed: the faces that are left, and two counts for each of them.
#[derive(Clone, Copy)]
pub(crate) struct Choice<'a> {
    pub(crate) map: Marked<'a>,
    pub(crate) counts: &'a ContourCounts,
    ghost size: { HaveSize counts.now map.tables.now.faces.count },
}

impl Choice<'_> {
    // Says whether vertex `v` of the contour may be removed: each remaining face at it meets the contour in one
    // interval, and some edge at it has both faces removed.
    fn is_removable(&self, v: usize) -> bool
        requires vertex { v < length self.now.map.tables.now.lists }
        ensures { IsTrue result ↔ IsRemovableRow (list_of self.now.map.tables.now.faces.own v) (list_of self.now.map.tables.now.faces.other v) self.now.map.marks.now self.now.counts.now.places.items self.now.counts.now.edges.items }
    {
        let Marked { tables, marks } = self.map;
        let own = tables.faces.own.list(v);
        let other = tables.faces.other.list(v);
        none_split(own, marks, &self.counts.places, &self.counts.edges)
            && is_open(own, other, marks)
    }

    // Moves the current position of `contour`, between two vertices, back until the vertex before it may be removed,
    // and returns `true`. It returns `false` if no vertex before the position but the first may be.
    fn seek(&self, contour: &mut Contour) -> Result<bool, AllocError>
        requires some { 0 < length contour.old.left.items }
        requires behind { 0 < length contour.old.right.items }
        requires vertices { AreWithin (vertices_of contour.old) (length self.now.map.tables.now.lists) }
        ensures same { IfOk result (λ _. vertices_of contour.new ≡ vertices_of contour.old) }
        ensures found { IfOk result (λ b. b ≡ true → (j : ℕ) → suc j ≡ length contour.new.left.items → IsRemovablePlace self.now.map.tables.now.faces.own self.now.map.tables.now.faces.other self.now.map.marks.now self.now.counts.now.places.items self.now.counts.now.edges.items (vertices_of contour.old) j) }
        ensures none { IfOk result (λ b. b ≡ false → (j : ℕ) → IsRemovablePlace self.now.map.tables.now.faces.own self.now.map.tables.now.faces.other self.now.map.marks.now self.now.counts.now.places.items self.now.counts.now.edges.items (vertices_of contour.old) j → length contour.old.left.items ≤ j) }
        ensures some { IfOk result (λ _. 0 < length contour.new.left.items) }
    {
        let choice = *self;
        for _ in 1..contour.left.len() {
            let v = contour.left[contour.left.len() - 1];
            if choice.is_removable(v as usize) {
                return Ok(true);
            }
            contour.step_back()?;
        }
        Ok(false)
    }

    /// Moves the current position of `contour` back until the vertex before it may be removed, and begins again at the
    /// end where that finds none. Some vertex but the first and last may be. It fails only when out of memory.
    pub(crate) fn find(&self, contour: &mut Contour) -> Result<(), AllocError>
        requires vertices { AreWithin (vertices_of contour.old) (length self.now.map.tables.now.lists) }
        requires removable { (j : ℕ) × IsRemovablePlace self.now.map.tables.now.faces.own self.now.map.tables.now.faces.other self.now.map.marks.now self.now.counts.now.places.items self.now.counts.now.edges.items (vertices_of contour.old) j }
        requires some { 0 < length contour.old.left.items }
        ensures same { IfOk result (λ _. vertices_of contour.new ≡ vertices_of contour.old) }
        ensures found { IfOk result (λ _. (j : ℕ) → suc j ≡ length contour.new.left.items → IsRemovablePlace self.now.map.tables.now.faces.own self.now.map.tables.now.faces.other self.now.map.marks.now self.now.counts.now.places.items self.now.counts.now.edges.items (vertices_of contour.old) j) }
        ensures some { IfOk result (λ _. 0 < length contour.new.left.items) }
    {
        let last = contour.len() - 1;
        let count = contour.left.len().min(last);
        contour.move_to(count)?;
        if self.seek(contour)? {
            return Ok(());
        }
        contour.move_to(last)?;
        let _found = self.seek(contour)?;
        Ok(())
    }
}
