//! Sides for all edges that lead upwards in a rooted tree, or that there are none.
ghost use Rattle.std.specs.Prelude.{◌≡◌, ◌+◌, ◌<◌, ◌≤◌, ℕ, Bool, false, length, slice_index, slice_index_or, IfOk, MatchOption};
ghost use Rattle.left_right_sides.specs.Standing.{IsSearchTree, MeetsAll};
ghost use Rattle.left_right_sides.specs.Views.{rooted_by, upper_depths, AreNumbered};

use crate::vertex_forks::{VertexForks, entry};
use left_right_blocks::Blocks;
use std::alloc::{AllocError, Global};

// Returns for each of `darts` the depth of its upper end. It fails only when out of memory.
fn heights_of(alloc: Global, depths: &[u16], darts: &[(u16, u16)]) -> Result<Vec<u16>, AllocError>
    ensures { IfOk result (λ heights. heights.items ≡ upper_depths depths.now darts.now) }
{
    let mut heights = Vec::with_capacity(alloc, darts.len())?;
    for dart in darts {
        heights.push(entry(depths, usize::from(dart.1)))?;
    }
    Ok(heights)
}

impl<'a> VertexForks<'a> {
    // Returns for each edge whether it is on the left, so that all forks are met, or None where no sides meet all. In `order`
    // each vertex comes behind its parent. It fails only when out of memory.
    fn sides(&self, order: &[u16]) -> Result<Option<Vec<bool>>, AllocError>
        requires few { length self.now.darts.now + length self.now.parents.now ≤ 65535 }
        requires within { (j : ℕ) → j < length order.now → slice_index order.now j < length self.now.parents.now }
        ensures { (edge : ℕ → ℕ → Bool) (number : ℕ → ℕ) (root : ℕ) → IsSearchTree (rooted_by edge number self.now.parents.now self.now.depths.now self.now.darts.now self.now.heights.now) root → AreNumbered (rooted_by edge number self.now.parents.now self.now.depths.now self.now.darts.now self.now.heights.now) order.now → length order.now ≡ length self.now.parents.now → IfOk result (λ found. MatchOption found ((side : ℕ → Bool) → ¬ MeetsAll (rooted_by edge number self.now.parents.now self.now.depths.now self.now.darts.now self.now.heights.now) side) (λ sides. MeetsAll (rooted_by edge number self.now.parents.now self.now.depths.now self.now.darts.now self.now.heights.now) (λ x. slice_index_or sides.items x false))) }
    {
        let mut lows = Vec::new(self.alloc);
        lows.resize(self.parents.len(), 0)?;
        let mut blocks = Blocks::new(
            self.alloc,
            self.darts.len() as u16,
            self.parents.len() as u16,
        )?;
        let mut items = self.items(order)?;
        let placed = self.place_all(&mut blocks, &mut items, &mut lows, order)?;
        if !placed {
            return Ok(None);
        }
        let sides = blocks.sides(self.alloc)?;
        Ok(Some(sides))
    }
}

/// Returns for each of `darts`, the edges that lead upwards in a rooted tree, from their lower ends, whether it is on the
/// left, so that all forks are met, or None where no sides meet all. The tree is given by `parents` and `depths`, and in
/// `order` each vertex comes behind its parent. It fails only when out of memory.
pub fn sides(
    alloc: Global,
    parents: &[u16],
    depths: &[u16],
    darts: &[(u16, u16)],
    order: &[u16],
) -> Result<Option<Vec<bool>>, AllocError>
    requires few { length darts.now + length parents.now ≤ 65535 }
    requires within { (j : ℕ) → j < length order.now → slice_index order.now j < length parents.now }
    ensures { (edge : ℕ → ℕ → Bool) (number : ℕ → ℕ) (root : ℕ) → IsSearchTree (rooted_by edge number parents.now depths.now darts.now (upper_depths depths.now darts.now)) root → AreNumbered (rooted_by edge number parents.now depths.now darts.now (upper_depths depths.now darts.now)) order.now → length order.now ≡ length parents.now → IfOk result (λ found. MatchOption found ((side : ℕ → Bool) → ¬ MeetsAll (rooted_by edge number parents.now depths.now darts.now (upper_depths depths.now darts.now)) side) (λ sides. MeetsAll (rooted_by edge number parents.now depths.now darts.now (upper_depths depths.now darts.now)) (λ x. slice_index_or sides.items x false))) }
{
    let heights = heights_of(alloc, depths, darts)?;
    let forks = VertexForks {
        alloc,
        parents,
        depths,
        darts,
        heights: &heights,
    };
    let found = forks.sides(order)?;
    Ok(found)
}
