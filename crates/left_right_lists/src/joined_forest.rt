//! A forest of a graph joined into one tree: the roots of its other trees become children of one root.
ghost use Rattle.std.specs.Prelude.{◌≡◌, ◌<◌, ℕ, slice_index, IfOk};
ghost use Rattle.left_right_lists.specs.Trees.{IsTabled, is_in_other_tree as is_in_other, grown_depth, grown_parent};

use left_right_check::{after_steps, entry};
use std::alloc::{AllocError, Global};

/// A forest, by the parents and depths of its vertices, and the root of which the others become children.
#[derive(Clone, Copy)]
pub(crate) struct JoinedForest<'a> {
    pub parents: &'a [u16],
    pub depths: &'a [u16],
    pub root: u16,
    ghost shallow: { (v : ℕ) → slice_index depths.now v < 4096 },
}

impl<'a> JoinedForest<'a> {
    // Says whether the root of `v` in the forest is another than `self.root`, so that it becomes a child of that one.
    fn is_in_other_tree(&self, v: u16) -> bool
        ensures { result ≡ is_in_other self.now.parents.now self.now.depths.now self.now.root v }
    {
        let top = after_steps(self.parents, v, entry(self.depths, v));
        top != self.root
    }

    // Returns the depth of `v` in the one tree, where the other roots are children of `self.root`.
    fn depth(&self, v: u16) -> u16
        ensures { result ≡ grown_depth self.now.parents.now self.now.depths.now self.now.root v }
    {
        let depth = entry(self.depths, v);
        if self.is_in_other_tree(v) {
            depth + 1
        } else {
            depth
        }
    }

    // Returns the parent of `v` in the one tree, where the other roots are children of `self.root`.
    fn parent(&self, v: u16) -> u16
        ensures { result ≡ grown_parent self.now.parents.now self.now.depths.now self.now.root v }
    {
        if entry(self.depths, v) == 0 && self.is_in_other_tree(v) {
            self.root
        } else {
            entry(self.parents, v)
        }
    }

    /// Returns the depths in the one tree of the vertices below `n`. It fails only when out of memory.
    pub(crate) fn all_depths(&self, alloc: Global, n: u16) -> Result<Vec<u16>, AllocError>
        ensures { IfOk result (λ table. IsTabled (grown_depth self.now.parents.now self.now.depths.now self.now.root) table.items n) }
    {
        let mut table = Vec::new(alloc);
        for v in 0..n {
            table.push(self.depth(v))?;
        }
        Ok(table)
    }

    /// Returns the parents in the one tree of the vertices below `n`. It fails only when out of memory.
    pub(crate) fn all_parents(&self, alloc: Global, n: u16) -> Result<Vec<u16>, AllocError>
        ensures { IfOk result (λ table. IsTabled (grown_parent self.now.parents.now self.now.depths.now self.now.root) table.items n) }
    {
        let mut table = Vec::new(alloc);
        for v in 0..n {
            table.push(self.parent(v))?;
        }
        Ok(table)
    }
}
