//! The blocks of one part of a fork put into those of another.

use crate::blocks::{Blocks, Fork, Taken};

impl Blocks {
    ghost use Rattle.std.specs.Prelude.{◌<◌, ℕ, List, [], length, slice_index, MatchBool};
    ghost use Rattle.chained_lists.specs.Chains.{put};
    ghost use Rattle.chained_lists.specs.Held.{Holds};
    ghost use Rattle.left_right_blocks.specs.Parts.{blocks_of};
    ghost use Rattle.left_right_blocks.specs.Steps.{IsSame, IsTaken, AreTaken, HasTwoSided, IsPut, ArePut, HasTwoDeep, IsWithin, MatchTaken, AreParts, MatchMerged};

    // Takes all further blocks of the stack `fork.from` with an edge that ends deeper than `fork.limit`, and moves their
    // edges to the second list of `first`. Returns false where one of them has two lists.
    fn take_more(&mut self, heights: &[u16], fork: Fork, first: u16) -> bool
        requires { first < self.old.edges }
        ensures same { IsSame self.old self.new }
        ensures taken { (lists0 stacks0 lists stacks : ℕ → List ℕ) (ids : List ℕ) → Holds self.old.lists lists → Holds self.old.stacks stacks → IsTaken (slice_index heights.now) self.old.edges fork.limit fork.from lists0 stacks0 lists stacks first ids → MatchBool result (AreTaken (slice_index heights.now) self.old.edges fork.limit fork.from lists0 stacks0 self.new first) (HasTwoSided (blocks_of self.old.edges lists0 (stacks0 fork.from))) }
    {
        for _ in 0..self.edges {
            let Some(b) = self.pop_above(heights, fork.from, fork.limit) else {
                return true;
            };
            if self.is_two_sided(b) {
                return false;
            }
            let into = self.other(first);
            let other = self.other(b);
            self.lists.join(into, other);
            self.lists.join(into, usize::from(b));
        }
        true
    }

    // Takes all blocks of the stack `fork.from` with an edge that ends deeper than `fork.limit`, and moves their edges to
    // the second list of the first of them.
    fn take(&mut self, heights: &[u16], fork: Fork) -> Taken
        ensures same { IsSame self.old self.new }
        ensures within { IsWithin self.old.edges result }
        ensures taken { (lists stacks : ℕ → List ℕ) → Holds self.old.lists lists → Holds self.old.stacks stacks → MatchTaken (slice_index heights.now) self.old.edges fork.limit fork.from lists stacks self.new result }
    {
        let Some(first) = self.pop_above(heights, fork.from, fork.limit) else {
            return Taken::Nothing;
        };
        if self.is_two_sided(first) {
            return Taken::Clash;
        }
        let into = self.other(first);
        self.lists.join(into, usize::from(first));
        if self.take_more(heights, fork, first) {
            Taken::First(first)
        } else {
            Taken::Clash
        }
    }

    // Takes all blocks of the stack `fork.into` with an edge that ends deeper than `fork.low`. It moves the deeper list of
    // each to the first list of `first`, and the other behind the second one. Returns false where both are deeper.
    fn put_more(&mut self, heights: &[u16], fork: Fork, first: u16) -> bool
        requires { first < self.old.edges }
        ensures same { IsSame self.old self.new }
        ensures put { (lists0 stacks0 : ℕ → List ℕ) → Holds self.old.lists lists0 → Holds self.old.stacks stacks0 → IsPut (slice_index heights.now) self.old.edges fork.low fork.into lists0 stacks0 lists0 stacks0 first [] → MatchBool result (ArePut (slice_index heights.now) self.old.edges fork.low fork.into lists0 stacks0 self.new first) (HasTwoDeep (slice_index heights.now) fork.low (blocks_of self.old.edges lists0 (stacks0 fork.into))) }
    {
        for _ in 0..self.edges {
            let Some(b) = self.pop_above(heights, fork.into, fork.low) else {
                return true;
            };
            let one = usize::from(b);
            let other = self.other(b);
            let into = self.other(first);
            if !self.is_deep(heights, one, fork.low) {
                self.lists.join(usize::from(first), other);
                self.lists.join(into, one);
                continue;
            }
            if self.is_deep(heights, other, fork.low) {
                return false;
            }
            self.lists.join(usize::from(first), one);
            self.lists.join(into, other);
        }
        true
    }

    /// Puts the blocks of the stack `fork.from` into those of the stack `fork.into`, as the fork demands of their sides.
    /// Returns false where there are no such sides. The blocks of each are those of all that returns by an edge of the
    /// fork, and the edges are in nesting order. `heights` has for each edge the depth of its end.
    pub fn merge(&mut self, heights: &[u16], fork: Fork) -> bool
        requires { fork.into < length self.old.stacks.first.items }
        ensures same { IsSame self.old self.new }
        ensures merged { (lists stacks : ℕ → List ℕ) → Holds self.old.lists lists → Holds self.old.stacks stacks → AreParts (slice_index heights.now) self.old.edges fork.limit fork.low fork.into fork.from lists stacks → MatchMerged (slice_index heights.now) self.old.edges fork.limit fork.low fork.into fork.from lists stacks self.new result }
    {
        match self.take(heights, fork) {
            Taken::Clash => false,
            Taken::Nothing => {
                self.stacks.join(fork.into, fork.from);
                true
            }
            Taken::First(first) => {
                if !self.put_more(heights, fork, first) {
                    return false;
                }
                self.stacks.join(fork.into, fork.from);
                self.stacks.push(fork.into, first);
                true
            }
        }
    }
}
