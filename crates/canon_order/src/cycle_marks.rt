//! Marks of the outer cycle while vertices are peeled off a map, and each vertex's number of marked neighbours.
//!
//! `marked` says of each vertex whether it is on that cycle, `gone` whether it was taken off, and `near` counts its
//! marked neighbours. A marked vertex is pushed on `stack` when that count becomes two.

ghost use Rattle.std.specs.Prelude.{◌≡◌, ◌≢◌, ◌<◌, ◌⊎◌, ◌↔◌, ℕ, false, true, [], ◌∷◌, ◌++◌, length, slice_index, slice_set, Contains, All, AllPairs, IfOk};
ghost use Rattle.map_theory.specs.Maps.{IsSimpleMap, list_of};
ghost use Rattle.canon_order.specs.Marks.{is_set, is_untouched, IsTally, IsUnmarked, IsNoted};

use crate::vertex_list_tools::{lower_noting, note, raise, raise_noting};
use half_edges::Rotations;
use std::alloc::AllocError;

/// Marks vertex `v`, unmarked so far, of the simple map `lists`. `marks` has each vertex's mark, and `counts` how many
/// of its neighbours are marked; both are updated.
pub fn mark(marks: &mut [bool], counts: &mut [u16], lists: &Rotations, v: u16)
    requires simple { IsSimpleMap lists.now }
    requires vertex { v < length lists.now }
    requires tally { IsTally lists.now marks.old counts.old }
    requires unmarked { is_set marks.old v ≡ false }
    ensures tally { IsTally lists.now marks.new counts.new }
    ensures marks { marks.new ≡ slice_set marks.old v true }
    ensures elsewhere { (u : ℕ) → ¬ Contains (list_of lists.now v) u → slice_index counts.new u ≡ slice_index counts.old u }
{
    lists.facts();
    marks[v as usize] = true;
    raise(counts, lists.list(v as usize));
}

/// Names three distinct vertices of a map.
#[derive(Clone, Copy)]
pub struct Three<'a> {
    /// The lists of the map.
    pub lists: &'a Rotations,
    /// The first of them.
    pub first: u16,
    /// The second of them.
    pub second: u16,
    /// The third of them.
    pub third: u16,
    pub ghost first_in: { first < length lists.now },
    pub ghost second_in: { second < length lists.now },
    pub ghost third_in: { third < length lists.now },
    pub ghost first_second: { first ≢ second },
    pub ghost first_third: { first ≢ third },
    pub ghost second_third: { second ≢ third },
}

impl Three<'_> {
    /// Marks the three vertices in `marks`, where none is marked, and counts in `counts`, zeros before, how many
    /// neighbours of each vertex are marked then. The map must be simple.
    #[inline(always)]
    pub fn mark_all(&self, marks: &mut [bool], counts: &mut [u16])
        requires simple { IsSimpleMap self.now.lists.now }
        requires unmarked { IsUnmarked self.now.lists.now marks.old counts.old }
        ensures tally { IsTally self.now.lists.now marks.new counts.new }
        ensures marks { (u : ℕ) → (is_set marks.new u ≡ true) ↔ Contains (self.now.first ∷ self.now.second ∷ self.now.third ∷ []) u }
    {
        mark(marks, counts, self.lists, self.first);
        mark(marks, counts, self.lists, self.second);
        mark(marks, counts, self.lists, self.third);
    }
}

/// Lends the lists of a map and the marks of the vertices that were taken off it, and names one of its vertices.
#[derive(Clone, Copy)]
pub struct AtVertex<'a> {
    /// The lists of the map.
    pub lists: &'a Rotations,
    /// For each vertex whether it was taken off.
    pub gone: &'a [bool],
    /// The vertex.
    pub v: u16,
    pub ghost few: { length lists.now < 4096 },
    pub ghost simple: { ∥ IsSimpleMap lists.now ∥₁ },
    pub ghost vertex: { v < length lists.now },
    pub ghost marks: { length gone.now ≡ length lists.now },
}

impl AtVertex<'_> {
    // Does nothing. By its contract a proof learns what holds of the map.
    fn facts(&self)
        ensures { IsSimpleMap self.now.lists.now }
    {}

    // Marks the vertex in `marked`, where it has no mark, and adds one in `near` for each of its neighbours. Pushes it
    // and its marked neighbours on `stack` where they then have two marked neighbours. Fails only when out of memory.
    #[inline(always)]
    fn mark_new(
        &self,
        marked: &mut [bool],
        near: &mut [u16],
        stack: &mut Vec<u16>,
    ) -> Result<(), AllocError>
        requires tally { IsTally self.now.lists.now marked.old near.old }
        requires vertices { All (λ u. u < length self.now.lists.now) stack.old.items }
        requires unmarked { is_set marked.old self.now.v ≡ false }
        ensures noted { IfOk result (λ _. IsNoted self.now.lists.now marked.old near.old stack.old.items marked.new near.new stack.new.items) }
        ensures marks { marked.new ≡ slice_set marked.old self.now.v true }
    {
        self.facts();
        marked[self.v as usize] = true;
        stack.reserve(1)?;
        note(near, stack, marked, self.v);
        raise_noting(near, stack, marked, self.lists.list(self.v as usize))
    }

    // Marks the vertices `fresh`, distinct ones that have no mark and are not gone, in `marked`. Updates `near` and
    // `stack` as `mark_new` does. It fails only when out of memory.
    #[inline(always)]
    fn mark_each(
        &self,
        marked: &mut [bool],
        near: &mut [u16],
        stack: &mut Vec<u16>,
        fresh: &[u16],
    ) -> Result<(), AllocError>
        requires tally { IsTally self.now.lists.now marked.old near.old }
        requires vertices { All (λ u. u < length self.now.lists.now) stack.old.items }
        requires within { All (λ u. u < length self.now.lists.now) fresh.now }
        requires distinct { AllPairs ◌≢◌ fresh.now }
        requires untouched { All (λ u. is_untouched marked.old self.now.gone.now u ≡ true) fresh.now }
        ensures noted { IfOk result (λ _. IsNoted self.now.lists.now marked.old near.old stack.old.items marked.new near.new stack.new.items) }
        ensures marks { IfOk result (λ _. (u : ℕ) → (is_set marked.new u ≡ true) ↔ ((is_set marked.old u ≡ true) ⊎ (Contains fresh.now u × (is_set self.now.gone.now u ≡ false)))) }
    {
        let at = *self;
        for u in fresh {
            let neighbour = AtVertex {
                lists: at.lists,
                gone: at.gone,
                v: *u,
            };
            neighbour.mark_new(marked, near, stack)?;
        }
        Ok(())
    }

    /// Takes the vertex off the outer cycle: clears its mark in `marked` and marks its neighbours that are not `gone`.
    /// `near`, the number of marked neighbours of each vertex, is updated. Marked vertices whose number becomes two are
    /// pushed on `stack`. `fresh` is scratch space. It fails only when out of memory.
    #[inline(always)]
    pub fn leave_cycle(
        &self,
        marked: &mut [bool],
        near: &mut [u16],
        stack: &mut Vec<u16>,
        fresh: &mut Vec<u16>,
    ) -> Result<(), AllocError>
        requires tally { IsTally self.now.lists.now marked.old near.old }
        requires vertices { All (λ u. u < length self.now.lists.now) stack.old.items }
        requires marked { is_set marked.old self.now.v ≡ true }
        ensures noted { IfOk result (λ _. IsNoted self.now.lists.now marked.old near.old stack.old.items marked.new near.new stack.new.items) }
        ensures neighbours { IfOk result (λ _. (u : ℕ) → Contains (list_of self.now.lists.now self.now.v) u → is_set marked.new u ≡ true → slice_index near.new u ≡ 2 → Contains stack.new.items u) }
        ensures marks { IfOk result (λ _. (u : ℕ) → (is_set marked.new u ≡ true) ↔ ((is_set (slice_set marked.old self.now.v false) u ≡ true) ⊎ (Contains (list_of self.now.lists.now self.now.v) u × (is_set self.now.gone.now u ≡ false)))) }
    {
        self.facts();
        let list = self.lists.list(self.v as usize);
        marked[self.v as usize] = false;
        lower_noting(near, stack, fresh, marked, self.gone, list)?;
        self.mark_each(marked, near, stack, fresh)?;
        Ok(())
    }
}
