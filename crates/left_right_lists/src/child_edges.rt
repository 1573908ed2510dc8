//! The edges from a tree vertex to its children and its return edges: what returns by each, its entries, their order.
ghost use Rattle.std.specs.Prelude.{◌≡◌, [], IfOk};
ghost use Rattle.left_right_lists.specs.Blocks.{AreValues};
ghost use Rattle.left_right_lists.specs.Placing.{HasChildren, IsReady, IsOrderAt, is_item_at, returned_at, block_at};

use crate::edge_orders::Choice;
use crate::entry_blocks::{push_block, push_middle};
use crate::return_edges::RootedGraph;
use left_right_check::entry;
use map_lists::ItemLists;
use std::alloc::{AllocError, Global};

/// A vertex of a tree whose children already have their entries.
#[derive(Clone, Copy)]
pub(crate) struct TreeVertex<'a> {
    /// The graph and its tree.
    pub rooted: RootedGraph<'a>,
    /// For each vertex placed so far, the return edges from its subtree to proper ancestors; the last vertex first.
    pub opens: &'a ItemLists<(u16, u16)>,
    /// The vertex.
    pub v: u16,
    ghost children: { HasChildren rooted.graph.now.n rooted.tree.now opens.now v },
}

impl<'a> TreeVertex<'a> {
    // Says whether an edge leads from the vertex to a child `u`, or returns to an ancestor `u` other than the parent.
    fn is_item(&self, u: u16) -> bool
        ensures { result ≡ is_item_at self.now.rooted.graph.now self.now.rooted.tree.now self.now.v u }
    {
        if self.rooted.is_child(self.v, u) {
            return true;
        }
        let tree = self.rooted.tree;
        self.rooted.are_joined(self.v, u)
            && entry(&tree.depths, u) < entry(&tree.depths, self.v)
            && u != entry(&tree.parents, self.v)
    }

    /// Lists for each child `u` the return edges from its subtree that end above this vertex, and for any other `u` the
    /// edge to `u` alone. It fails only when out of memory.
    pub(crate) fn returned(&self, alloc: Global) -> Result<ItemLists<(u16, u16)>, AllocError>
        ensures { IfOk result (λ rows. AreValues (returned_at self.now.rooted.graph.now.n self.now.rooted.tree.now self.now.opens.now self.now.v) [] rows self.now.rooted.graph.now.n) }
    {
        let mut rows = ItemLists::new(alloc);
        for u in 0..self.rooted.graph.n() {
            if !self.rooted.is_child(self.v, u) {
                rows.push(&[(self.v, u)])?;
                continue;
            }
            push_middle(&mut rows, self.opens.list(self.rooted.place_of(u)), self.v)?;
        }
        Ok(rows)
    }

    /// Lists for each child `u` its block (the entries at this vertex that [`push_block`] makes), and for any other `u`
    /// the entry `u` alone. It fails only when out of memory.
    pub(crate) fn blocks(&self, alloc: Global) -> Result<ItemLists<u16>, AllocError>
        ensures { IfOk result (λ rows. AreValues (block_at self.now.rooted.graph.now.n self.now.rooted.tree.now self.now.opens.now self.now.v) [] rows self.now.rooted.graph.now.n) }
    {
        let mut rows = ItemLists::new(alloc);
        for u in 0..self.rooted.graph.n() {
            if !self.rooted.is_child(self.v, u) {
                rows.push(&[u])?;
                continue;
            }
            let mut list = Vec::new(alloc);
            push_block(
                &mut list,
                self.opens.list(self.rooted.place_of(u)),
                self.v,
                u,
            )?;
            rows.push(&list)?;
        }
        Ok(rows)
    }

    /// Returns the other ends of this vertex's edges to children and of its return edges. In their order each edge may
    /// precede all later ones; there has to be such an order. `sides` has the sides of return edges, as `sides_of`
    /// returns them, and `returned` is what [`TreeVertex::returned`] lists. It fails only when out of memory.
    pub(crate) fn order(
        &self,
        alloc: Global,
        sides: &[bool],
        returned: &ItemLists<(u16, u16)>,
    ) -> Result<Vec<u16>, AllocError>
        requires returned { AreValues (returned_at self.now.rooted.graph.now.n self.now.rooted.tree.now self.now.opens.now self.now.v) [] returned.now self.now.rooted.graph.now.n }
        requires ready { IsReady self.now.rooted.graph.now self.now.rooted.tree.now sides.now self.now.opens.now self.now.v }
        ensures { IfOk result (λ us. IsOrderAt self.now.rooted.graph.now self.now.rooted.tree.now sides.now self.now.opens.now self.now.v us.items) }
    {
        let n = self.rooted.graph.n();
        let mut free = Vec::new(alloc);
        for u in 0..n {
            free.push(self.is_item(u))?;
        }
        let choice = Choice {
            depths: &self.rooted.tree.depths,
            sides,
            returns: returned,
            n,
        };
        let us = choice.order_of(alloc, &mut free)?;
        Ok(us)
    }
}
