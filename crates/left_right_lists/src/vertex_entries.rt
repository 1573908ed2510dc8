//! The list entries of all vertices of a depth-first tree, found from the last vertex of the search order to the first.
ghost use Rattle.std.specs.Prelude.{◌≡◌, ◌<◌, [], ℕ, length, slice_index_or, Contains, IfOk};
ghost use Rattle.map_lists.specs.Lists.{Lists};
ghost use Rattle.embed_theorem.specs.Expanded.{IsMapOf};
ghost use Rattle.left_right_maps.specs.RootedMaps.{joined as joined_lists};
ghost use Rattle.left_right_lists.specs.Trees.{IsTreeOf, AreSides};
ghost use Rattle.left_right_lists.specs.Sides.{side_in};
ghost use Rattle.left_right_lists.specs.Placing.{AreRows};

use crate::child_edges::TreeVertex;
use crate::return_edges::RootedGraph;
use left_right_check::entry;
use map_lists::ItemLists;
use std::alloc::{AllocError, Global};

// Returns the lists of `rows` at the indices `us`, concatenated in this order. It fails only when out of memory.
fn joined_rows<T: Copy>(
    alloc: Global,
    rows: &ItemLists<T>,
    us: &[u16],
) -> Result<Vec<T>, AllocError>
    requires { (u : ℕ) → Contains us.now u → u < length rows.now }
    ensures { IfOk result (λ list. list.items ≡ joined_lists (λ u. slice_index_or rows.now u []) us.now) }
{
    let mut list = Vec::new(alloc);
    for u in us {
        list.extend_from_slice(rows.list(usize::from(*u)))?;
    }
    Ok(list)
}

impl<'a> RootedGraph<'a> {
    /// Returns for each vertex its list entries without its parent, the last vertex of the search order first. `sides`
    /// has the sides of return edges, as `sides_of` returns them. It fails only when out of memory.
    pub(crate) fn all_entries(
        &self,
        alloc: Global,
        sides: &[bool],
    ) -> Result<ItemLists<u16>, AllocError>
        requires tree { IsTreeOf self.now.graph.now self.now.tree.now }
        requires sides { AreSides self.now.graph.now self.now.tree.now.parents.items self.now.tree.now.depths.items (side_in sides.now) }
        ensures long { IfOk result (λ entries. length entries ≡ self.now.graph.now.n) }
        ensures maps { IfOk result (λ entries. (lists : Lists) → AreRows self.now.graph.now self.now.tree.now entries lists → IsMapOf lists self.now.graph.now) }
    {
        let mut entries = ItemLists::new(alloc);
        let mut opens = ItemLists::new(alloc);
        let n = self.graph.n();
        for k in 0..n {
            let v = entry(&self.tree.order, n - 1 - k);
            let at = TreeVertex {
                rooted: *self,
                opens: &opens,
                v,
            };
            let returned = at.returned(alloc)?;
            let blocks = at.blocks(alloc)?;
            let us = at.order(alloc, sides, &returned)?;
            let list = joined_rows(alloc, &blocks, &us)?;
            let waiting = joined_rows(alloc, &returned, &us)?;
            entries.push(&list)?;
            opens.push(&waiting)?;
        }
        Ok(entries)
    }
}
