//! All vertices of a rooted tree placed, one by one, from the last of an order to the first.
ghost use Rattle.std.specs.Prelude.{◌≡◌, ◌+◌, ◌<◌, ◌≤◌, ℕ, Bool, List, length, slice_index, IfOk};
ghost use Rattle.left_right_blocks.specs.Blocks.{Block};
ghost use Rattle.left_right_blocks.specs.States.{IsState};
ghost use Rattle.chained_lists.specs.Held.{Holds};
ghost use Rattle.left_right_sides.specs.Items.{AreItems};
ghost use Rattle.left_right_sides.specs.Standing.{IsStanding, IsSearchTree};
ghost use Rattle.left_right_sides.specs.Views.{rooted_by, IsAlike, MatchPlaced, AreNumbered};

use crate::vertex_forks::VertexForks;
use chained_lists::ChainedLists;
use left_right_blocks::Blocks;
use std::alloc::AllocError;

impl<'a> VertexForks<'a> {
    /// Places all vertices of `order`, from the last to the first. It returns false where there are no sides that meet all
    /// forks. `items` has the stacks of each vertex's fork in the vertex's list, and `lows` for each vertex the least depth at
    /// which an edge of its part ends. It fails only when out of memory.
    pub(crate) fn place_all(
        &self,
        blocks: &mut Blocks,
        items: &mut ChainedLists,
        lows: &mut [u16],
        order: &[u16],
    ) -> Result<bool, AllocError>
        requires within { (j : ℕ) → j < length order.now → slice_index order.now j < length self.now.parents.now }
        requires room { length self.now.darts.now + length self.now.parents.now ≤ length blocks.old.stacks.first.items }
        requires numbers { length items.old.next.items ≡ length self.now.darts.now + length self.now.parents.now }
        ensures alike { IsAlike blocks.old blocks.new }
        ensures placed { (edge : ℕ → ℕ → Bool) (number : ℕ → ℕ) (root : ℕ) (P : ℕ → List Block) (lists : ℕ → List ℕ) → IsSearchTree (rooted_by edge number self.now.parents.now self.now.depths.now self.now.darts.now self.now.heights.now) root → AreNumbered (rooted_by edge number self.now.parents.now self.now.depths.now self.now.darts.now self.now.heights.now) order.now → length order.now ≡ length self.now.parents.now → length lows.old ≡ length self.now.parents.now → IsState blocks.old P → IsStanding (rooted_by edge number self.now.parents.now self.now.depths.now self.now.darts.now self.now.heights.now) 0 (slice_index lows.old) P blocks.old.ties.items → Holds items.old lists → AreItems (rooted_by edge number self.now.parents.now self.now.depths.now self.now.darts.now self.now.heights.now) lists → IfOk result (MatchPlaced (rooted_by edge number self.now.parents.now self.now.depths.now self.now.darts.now self.now.heights.now) (length order.now) lows.new blocks.new) }
    {
        for k in 0..order.len() {
            let v = order[order.len() - 1 - k];
            let placed = self.place(blocks, items, lows, v)?;
            if !placed {
                return Ok(false);
            }
        }
        Ok(true)
    }
}
