//! All parts of a fork put into one stack.

use crate::blocks::{Blocks, Fork};
use crate::fork_edges::ForkEdge;

impl Blocks {
    ghost use Rattle.std.specs.Prelude.{◌<◌, ℕ, List, length, slice_index};
    ghost use Rattle.left_right_blocks.specs.Blocks.{Block};
    ghost use Rattle.left_right_blocks.specs.States.{IsState};
    ghost use Rattle.left_right_blocks.specs.Steps.{IsSame};
    ghost use Rattle.left_right_blocks.specs.Forks.{IsFork, MatchGathered};

    /// Puts the blocks of the stacks of all `edges` of a fork into the stack `into`, which is empty, as the fork demands of
    /// their sides. Returns false where there are no such sides. The edges are in nesting order, and `heights` has for each
    /// edge the depth of its end.
    pub fn gather(&mut self, heights: &[u16], into: usize, edges: &[ForkEdge]) -> bool
        requires { into < length self.old.stacks.first.items }
        ensures same { IsSame self.old self.new }
        ensures gathered { (P : ℕ → List Block) → IsState self.old P → IsFork (slice_index heights.now) into P edges.now → MatchGathered (slice_index heights.now) into P self.new edges.now result }
    {
        if edges.is_empty() {
            return true;
        }
        let first = edges[0];
        self.append(into, first.stack);
        for i in 1..edges.len() {
            let next = edges[i];
            let fork = Fork {
                into,
                from: next.stack,
                limit: first.low,
                low: next.low,
            };
            if !self.merge(heights, fork) {
                return false;
            }
        }
        true
    }
}
