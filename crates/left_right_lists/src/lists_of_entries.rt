//! The rotation lists of a graph, made of the entries of its tree's vertices and of their parents.
ghost use Rattle.std.specs.Prelude.{◌≡◌, length, IfOk};
ghost use Rattle.left_right_lists.specs.Placing.{AreRows};

use crate::return_edges::{RootedGraph, push_if};
use left_right_check::entry;
use map_lists::{ItemLists, Rotations, VertexId};
use std::alloc::{AllocError, Global};

impl<'a> RootedGraph<'a> {
    /// Returns the rotation lists of the graph: for each vertex its list of `entries`, which `all_entries` made, and
    /// then its parent, without edges of the tree alone. It fails only when out of memory.
    pub(crate) fn rotation_lists(
        &self,
        alloc: Global,
        entries: &ItemLists<u16>,
    ) -> Result<Rotations, AllocError>
        requires { length entries.now ≡ self.now.graph.now.n }
        ensures { IfOk result (AreRows self.now.graph.now self.now.tree.now entries.now) }
    {
        let mut lists = ItemLists::new(alloc);
        for v in 0..self.graph.n() {
            let mut row = Vec::new(alloc);
            row.extend_from_slice(entries.list(self.place_of(v)))?;
            push_if(&mut row, v != self.tree.root, entry(&self.tree.parents, v))?;
            let mut kept = Vec::new(alloc);
            for u in &row {
                if self.graph.has(VertexId(v), VertexId(*u)) {
                    kept.push(*u)?;
                }
            }
            lists.push(&kept)?;
        }
        Ok(Rotations::from_lists(lists))
    }
}
