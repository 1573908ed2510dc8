//! Depths of the vertices of a finished depth-first search.
ghost use Rattle.std.specs.Prelude.{◌<◌, ℕ, length, slice_index, IfOk};
ghost use Rattle.graph_search.specs.Forests.{IsForestOf};
ghost use Rattle.left_right_lists.specs.Depths.{IsDepthBy, AreDepths};

use graph_search::search_forests::Forest;
use left_right_check::entry;
use map_lists::Rotations;
use std::alloc::{AllocError, Global};

/// Returns the depth of each vertex in `forest`, a search of `lists`: one more than its parent's, or 0 for a root. It
/// fails only when out of memory.
pub(crate) fn depths_of(
    alloc: Global,
    lists: &Rotations,
    forest: &Forest,
) -> Result<Vec<u16>, AllocError>
    requires forest { IsForestOf lists.now forest.now.order.items forest.now.number.items forest.now.last.items forest.now.parent.items }
    ensures { IfOk result (λ depths. AreDepths forest.now.order.items forest.now.parent.items depths.items (length lists.now)) }
{
    let mut depths = vec![in alloc; 0u16; lists.len()]?;
    for k in 0..lists.len() {
        let v = forest.order[k];
        let parent = entry(&forest.parent, v);
        let mut depth = 0;
        if usize::from(parent) < depths.len() {
            depth = entry(&depths, parent) + 1;
        }
        depths[usize::from(v)] = depth;
    }
    Ok(depths)
}
