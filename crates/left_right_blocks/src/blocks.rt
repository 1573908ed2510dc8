//! Stacks of blocks of edges: what is left of each part of a graph below a vertex, put together at forks.
ghost use Rattle.std.specs.Prelude.{◌≡◌, ◌+◌, ◌<◌, length, slice_index};

use crate::sides::tied_sides;
use crate::ties::Tie;
use chained_lists::ChainedLists;
use std::alloc::{AllocError, Global};

/// Two parts of a fork to be put together, by the stacks that hold them.
#[derive(Clone, Copy)]
pub struct Fork {
    /// The stack of what returns by the edges of the fork so far.
    pub into: usize,
    /// The stack of what returns by the next edge.
    pub from: usize,
    /// The depth of the least deep end of the former.
    pub limit: u16,
    /// The depth of the least deep end of the latter.
    pub low: u16,
}

/// What was taken from a stack.
pub(crate) enum Taken {
    /// No block has an edge that is deep enough.
    Nothing,
    /// The block that all that was taken is in, on one side.
    First(u16),
    /// Two edges have to be on one side that a block has on different ones.
    Clash,
}

/// Blocks of edges, in stacks. Each edge is in one block at most.
#[derive(Drop)]
pub struct Blocks {
    /// The lists of block b: list b, and list b + edges.
    pub(crate) lists: ChainedLists,
    /// The stacks, of numbers of blocks.
    pub(crate) stacks: ChainedLists,
    /// For each edge that was dropped beside others one of these.
    pub(crate) ties: Vec<Tie>,
    /// The number of edges, and of blocks.
    pub(crate) edges: u16,
    ghost lists_long: { length lists.first.items ≡ edges + edges },
    ghost lists_of: { length lists.next.items ≡ edges },
    ghost stacks_of: { length stacks.next.items ≡ edges },
}

/// Returns the height of the edge `x`, or 0 past the end of `heights`.
pub(crate) fn height(heights: &[u16], x: u16) -> u16
    ensures { result ≡ slice_index heights.now x }
{
    let x = usize::from(x);
    if x < heights.len() { heights[x] } else { 0 }
}

impl Blocks {
    ghost use Rattle.std.specs.Prelude.{◌≡◌, ◌≢◌, ◌+◌, ◌<◌, ◌↔◌, ◌||◌, true, ℕ, List, [], ◌++◌, length, slice_index, slice_index_or, false, IfSome, IfOk, IsTrue, MatchOption, MatchBool};
    ghost use Rattle.chained_lists.specs.Chains.{put};
    ghost use Rattle.chained_lists.specs.Held.{Holds, IsPopped};
    ghost use Rattle.left_right_blocks.specs.Found.{is_deep};
    ghost use Rattle.left_right_blocks.specs.Parts.{block_of, blocks_of};
    ghost use Rattle.left_right_blocks.specs.Blocks.{IsPart, edges_in};
    ghost use Rattle.left_right_blocks.specs.Ties.{AreKept};
    ghost use Rattle.left_right_blocks.specs.Begun.{IsBegun, first_height, IsDeepest};
    ghost use Rattle.left_right_blocks.specs.Trims.{AreTied, HasEdge, IsEmpty};
    ghost use Rattle.left_right_blocks.specs.Steps.{IsSame, IsNoneAbove, IsTwoSided};

    /// Returns a block for each of `edges` edges, in a stack of its own with the edge's number, and behind these stacks
    /// `more` empty ones. It fails only when out of memory.
    pub fn new(alloc: Global, edges: u16, more: u16) -> Result<Self, AllocError>
        ensures held { IfOk result (λ blocks. IsBegun edges more blocks) }
    {
        let lists = ChainedLists::new(alloc, edges, edges)?;
        let stacks = ChainedLists::new(alloc, edges, more)?;
        Ok(Blocks {
            lists,
            stacks,
            ties: Vec::new(alloc),
            edges,
        })
    }

    /// Moves all blocks of stack `from` behind those of the stack `into`.
    pub fn append(&mut self, into: usize, from: usize)
        requires { into < length self.old.stacks.first.items }
        ensures same { IsSame self.old self.new }
        ensures lists { self.new.lists ≡ self.old.lists }
        ensures stacks { (stacks : ℕ → List ℕ) → Holds self.old.stacks stacks → into ≢ from → Holds self.new.stacks (put from [] (put into (stacks into ++ stacks from) stacks)) }
    {
        self.stacks.join(into, from);
    }

    /// Returns for each edge whether it is on the left, so that all ties are kept. It fails only when out of memory.
    pub fn sides(&self, alloc: Global) -> Result<Vec<bool>, AllocError>
        ensures { (lists : ℕ → List ℕ) → AreTied self.now.edges lists self.now.ties.items → IfOk result (λ sides. AreKept (λ x. slice_index_or sides.items x false) self.now.ties.items) }
    {
        let sides = tied_sides(alloc, &self.ties, self.edges)?;
        Ok(sides)
    }

    /// Returns the depth at which the deepest edge of the blocks of `stack` ends, or None if it has none.
    pub fn deepest(&self, heights: &[u16], stack: usize) -> Option<u16>
        ensures { (lists stacks : ℕ → List ℕ) (low : ℕ) → Holds self.now.lists lists → Holds self.now.stacks stacks → IsPart (slice_index heights.now) low (blocks_of self.now.edges lists (stacks stack)) → MatchOption result (stacks stack ≡ []) (IsDeepest (slice_index heights.now) (edges_in (blocks_of self.now.edges lists (stacks stack)))) }
    {
        let b = self.stacks.first(stack)?;
        let one = self.first_height(heights, usize::from(b));
        let other = self.first_height(heights, self.other(b));
        let deepest = one.max(other);
        Some(deepest)
    }

    /// Returns the number of the second list of block `b`.
    pub(crate) fn other(&self, b: u16) -> usize
        ensures { result ≡ b + self.now.edges }
    {
        usize::from(b) + usize::from(self.edges)
    }

    // Returns the depth of the end of the first edge of `list`, or 0 where it is empty.
    fn first_height(&self, heights: &[u16], list: usize) -> u16
        ensures { (lists : ℕ → List ℕ) → Holds self.now.lists lists → result ≡ first_height (slice_index heights.now) (lists list) }
    {
        match self.lists.first(list) {
            Some(x) => height(heights, x),
            None => 0,
        }
    }

    /// Says whether `list` begins with an edge that ends deeper than `depth`.
    pub(crate) fn is_deep(&self, heights: &[u16], list: usize, depth: u16) -> bool
        ensures { (lists : ℕ → List ℕ) → Holds self.now.lists lists → result ≡ is_deep (slice_index heights.now) depth (lists list) }
    {
        match self.lists.first(list) {
            Some(x) => depth < height(heights, x),
            None => false,
        }
    }

    /// Says whether a list of block `b` begins with an edge that ends deeper than `depth`.
    pub(crate) fn is_above(&self, heights: &[u16], b: u16, depth: u16) -> bool
        ensures { (lists : ℕ → List ℕ) → Holds self.now.lists lists → result ≡ (is_deep (slice_index heights.now) depth (lists b) || is_deep (slice_index heights.now) depth (lists (b + self.now.edges))) }
    {
        if self.is_deep(heights, usize::from(b), depth) {
            return true;
        }
        self.is_deep(heights, self.other(b), depth)
    }

    /// Says whether both lists of block `b` have an edge.
    pub(crate) fn is_two_sided(&self, b: u16) -> bool
        ensures { (lists : ℕ → List ℕ) → Holds self.now.lists lists → IsTrue result ↔ IsTwoSided (block_of self.now.edges lists b) }
    {
        self.lists.first(usize::from(b)).is_some() && self.lists.first(self.other(b)).is_some()
    }

    /// Says whether block `b` has an edge.
    pub(crate) fn has_edge(&self, b: u16) -> bool
        ensures { (lists : ℕ → List ℕ) → Holds self.now.lists lists → MatchBool result (HasEdge (block_of self.now.edges lists b)) (IsEmpty (block_of self.now.edges lists b)) }
    {
        if self.lists.first(usize::from(b)).is_some() {
            return true;
        }
        self.lists.first(self.other(b)).is_some()
    }

    /// Takes the first block from `stack`, if it has an edge that ends deeper than `depth`.
    pub(crate) fn pop_above(&mut self, heights: &[u16], stack: usize, depth: u16) -> Option<u16>
        ensures same { IsSame self.old self.new }
        ensures lists { self.new.lists ≡ self.old.lists }
        ensures number { IfSome result (λ b. b < self.old.edges) }
        ensures popped { (lists stacks : ℕ → List ℕ) → Holds self.old.lists lists → Holds self.old.stacks stacks → MatchOption result (Holds self.new.stacks stacks × IsNoneAbove (slice_index heights.now) depth (blocks_of self.old.edges lists (stacks stack))) (λ b. IsPopped self.new.stacks stacks stack b × ((is_deep (slice_index heights.now) depth (lists b) || is_deep (slice_index heights.now) depth (lists (b + self.old.edges))) ≡ true)) }
    {
        let b = self.stacks.first(stack)?;
        if !self.is_above(heights, b, depth) {
            return None;
        }
        self.stacks.pop(stack)
    }
}
