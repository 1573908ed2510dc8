//! Edges dropped from the blocks of a part where they end.

use crate::blocks::{Blocks, height};
use crate::ties::Tie;
use std::alloc::AllocError;

impl Blocks {
    ghost use Rattle.std.specs.Prelude.{◌≡◌, ◌≢◌, ◌+◌, ◌<◌, ◌≤◌, ℕ, List, ◌++◌, length, slice_index, IfOk, MatchOption};
    ghost use Rattle.chained_lists.specs.Held.{Holds, IsPopped};
    ghost use Rattle.left_right_blocks.specs.Parts.{blocks_of};
    ghost use Rattle.left_right_blocks.specs.Blocks.{IsPart};
    ghost use Rattle.left_right_blocks.specs.Trims.{ties_of, AreTied, IsEnded, AreDropped, AreBlockDropped, IsTrimmed};
    ghost use Rattle.left_right_blocks.specs.Steps.{IsSame};

    // Takes the first edge from `list`, if it ends at `depth` or deeper.
    fn pop_end(&mut self, heights: &[u16], list: usize, depth: u16) -> Option<u16>
        ensures same { IsSame self.old self.new }
        ensures stacks { self.new.stacks ≡ self.old.stacks }
        ensures popped { (lists : ℕ → List ℕ) → Holds self.old.lists lists → MatchOption result (Holds self.new.lists lists × IsEnded (slice_index heights.now) depth (lists list)) (λ x. IsPopped self.new.lists lists list x × (depth ≤ slice_index heights.now x)) }
    {
        let x = self.lists.first(list)?;
        if height(heights, x) < depth {
            return None;
        }
        self.lists.pop(list)
    }

    // Ties the edge `x`, which was in list `one`, to the first edge there, or else to the first edge of list `other`, on
    // the other side. It fails only when out of memory.
    fn tie(&mut self, x: u16, one: usize, other: usize) -> Result<(), AllocError>
        ensures edges { self.new.edges ≡ self.old.edges }
        ensures lists { self.new.lists ≡ self.old.lists }
        ensures stacks { self.new.stacks ≡ self.old.stacks }
        ensures tied { (lists : ℕ → List ℕ) → Holds self.old.lists lists → IfOk result (λ _. self.new.ties.items ≡ self.old.ties.items ++ ties_of x (lists one) (lists other)) }
    {
        if let Some(to) = self.lists.first(one) {
            self.ties.push(Tie {
                edge: x,
                to,
                turn: false,
            })?;
            return Ok(());
        }
        if let Some(to) = self.lists.first(other) {
            self.ties.push(Tie {
                edge: x,
                to,
                turn: true,
            })?;
        }
        Ok(())
    }

    // Drops the first edges of list `one` that end at `depth` or deeper, and ties each to one that is left there or in
    // list `other`. It fails only when out of memory.
    fn drop_ends(
        &mut self,
        heights: &[u16],
        one: usize,
        other: usize,
        depth: u16,
    ) -> Result<(), AllocError>
        ensures edges { self.new.edges ≡ self.old.edges }
        ensures stacks { self.new.stacks ≡ self.old.stacks }
        ensures dropped { (lists : ℕ → List ℕ) → Holds self.old.lists lists → AreTied self.old.edges lists self.old.ties.items → one ≢ other → IfOk result (λ _. AreDropped (slice_index heights.now) self.old.edges depth one other lists self.new.lists self.old.ties.items self.new.ties.items) }
    {
        for _ in 0..self.edges {
            let Some(x) = self.pop_end(heights, one, depth) else {
                return Ok(());
            };
            self.tie(x, one, other)?;
        }
        Ok(())
    }

    // Drops the edges of block `b` that end at `depth` or deeper, and says whether it has others. Fails only when out of
    // memory.
    fn drop_block(&mut self, heights: &[u16], b: u16, depth: u16) -> Result<bool, AllocError>
        ensures edges { self.new.edges ≡ self.old.edges }
        ensures stacks { self.new.stacks ≡ self.old.stacks }
        ensures dropped { (lists : ℕ → List ℕ) → Holds self.old.lists lists → AreTied self.old.edges lists self.old.ties.items → b < self.old.edges → IfOk result (λ left. AreBlockDropped (slice_index heights.now) self.old.edges depth b lists self.new.lists self.old.ties.items self.new.ties.items left) }
    {
        let one = usize::from(b);
        let other = self.other(b);
        self.drop_ends(heights, one, other, depth)?;
        self.drop_ends(heights, other, one, depth)?;
        let left = self.has_edge(b);
        Ok(left)
    }

    /// Drops all edges that end at `depth` or deeper from the blocks of `stack`. Each is tied to one that was left then in
    /// its block, if there was one. It fails only when out of memory.
    pub fn trim(&mut self, heights: &[u16], stack: usize, depth: u16) -> Result<(), AllocError>
        ensures edges { self.new.edges ≡ self.old.edges }
        ensures count { length self.new.stacks.first.items ≡ length self.old.stacks.first.items }
        ensures trimmed { (lists stacks : ℕ → List ℕ) (low : ℕ) → Holds self.old.lists lists → Holds self.old.stacks stacks → AreTied self.old.edges lists self.old.ties.items → IsPart (slice_index heights.now) low (blocks_of self.old.edges lists (stacks stack)) → IfOk result (λ _. IsTrimmed (slice_index heights.now) self.old.edges depth low stack lists stacks self.new.lists self.new.stacks self.old.ties.items self.new.ties.items) }
    {
        for _ in 0..self.edges {
            let Some(b) = self.stacks.first(stack) else {
                return Ok(());
            };
            if self.drop_block(heights, b, depth)? {
                return Ok(());
            }
            self.stacks.pop(stack);
        }
        Ok(())
    }
}
