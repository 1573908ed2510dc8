//! Which vertices are cut vertices, as flags for all vertices, and whether there is none, by low points.
ghost use Rattle.std.specs.Prelude.{◌≡◌, ◌+◌, ◌<◌, ◌≤◌, ◌↔◌, ℕ, length, slice_index, IfOk, IsTrue, MatchBool};
ghost use Rattle.map_theory.specs.Maps.{list_of};
ghost use Rattle.graph_search.specs.Cuts.{IsCutVertex};
ghost use Rattle.graph_search.specs.Forests.{IsAdjacency, IsForestOf};
ghost use Rattle.graph_search.specs.Lows.{AreLows};
ghost use Rattle.graph_search.specs.Flags.{AreCutFlags, IsSeparatedIn, HasSeparatedChild, TellSeparated};

use crate::search_forests::{Forest, Searched, low_points, search_forest};
use map_lists::Rotations;
use std::alloc::{AllocError, Global};

impl Searched<'_> {
    // Says whether `u` is a child of `v` in the forest, and `v` as a cut vertex separates `u` from other vertices.
    fn is_separated(&self, v: u16, u: u16) -> bool
        requires v_in { v < length self.now.lists.now }
        requires u_in { u < length self.now.lists.now }
        ensures { IsTrue result ↔ IsSeparatedIn self.now.number.now self.now.parent.now self.now.low.now v u }
    {
        if self.parent[u as usize] != v {
            false
        } else if (self.parent[v as usize] as usize) < self.number.len() {
            self.number[v as usize] <= self.low[u as usize]
        } else {
            self.number[v as usize] + 1 < self.number[u as usize]
        }
    }

    /// Says whether `v` is a cut vertex: it separates some child in its list from other vertices.
    pub(crate) fn has_separated(&self, v: u16) -> bool
        requires { v < length self.now.lists.now }
        ensures { MatchBool result (HasSeparatedChild self.now.number.now self.now.parent.now self.now.low.now v (list_of self.now.lists.now v)) (¬ HasSeparatedChild self.now.number.now self.now.parent.now self.now.low.now v (list_of self.now.lists.now v)) }
    {
        let list = self.lists.list(v as usize);
        for u in list {
            if self.is_separated(v, *u) {
                return true;
            }
        }
        false
    }

    // Says whether no parent separates a child from other vertices. Only a yes is promised: there is no cut vertex.
    fn no_child_apart(&self) -> bool
        ensures { IsTrue result → (v u : ℕ) → v < length self.now.number.now → slice_index self.now.number.now v ≤ slice_index self.now.low.now u → ¬ IsSeparatedIn self.now.number.now self.now.parent.now self.now.low.now v u }
    {
        let searched = *self;
        for u in 0..searched.number.len() {
            let v = searched.parent[u];
            if searched.number.len() <= v as usize {
                continue;
            }
            // Most children have a low point before their parent, which one look tells.
            if searched.low[u] < searched.number[v as usize] {
                continue;
            }
            if searched.is_separated(v, u as u16) {
                return false;
            }
        }
        true
    }

    // Sets `flags[v]` to whether `v` is a cut vertex, for each vertex `v`.
    fn set_flags(&self, flags: &mut [bool])
        requires { length flags.old ≡ length self.now.lists.now }
        ensures { TellSeparated self.now.lists.now self.now.number.now self.now.parent.now self.now.low.now flags.new (length self.now.lists.now) }
    {
        for v in 0..self.lists.len() {
            flags[v] = self.has_separated(v as u16);
        }
    }
}

/// Says whether no vertex of `lists`, in which adjacency goes both ways, is a cut vertex; only a yes is promised.
/// `forest` is a search of the lists, with low points `low`. It looks once at each vertex.
pub fn is_uncut(lists: &Rotations, forest: &Forest, low: &[u16]) -> bool
    requires adjacency { IsAdjacency lists.now }
    requires forest { IsForestOf lists.now forest.now.order.items forest.now.number.items forest.now.last.items forest.now.parent.items }
    requires lows { AreLows lists.now forest.now.number.items forest.now.last.items low.now }
    ensures { IsTrue result → (v : ℕ) → ¬ IsCutVertex lists.now v }
{
    lists.facts();
    let searched = Searched {
        lists,
        number: &forest.number,
        parent: &forest.parent,
        low,
    };
    searched.no_child_apart()
}

/// Returns for each vertex of `lists`, in which adjacency goes both ways, whether it is a cut vertex. The time is
/// linear in the entries. It fails only when out of memory.
pub fn cut_flags(alloc: Global, lists: &Rotations) -> Result<Vec<bool>, AllocError>
    requires adjacency { IsAdjacency lists.now }
    ensures { IfOk result (λ flags. AreCutFlags lists.now flags.items) }
{
    let forest = search_forest(alloc, lists)?;
    let low = low_points(alloc, lists, &forest)?;
    let mut flags = vec![in alloc; false; lists.len()]?;
    let searched = Searched {
        lists,
        number: &forest.number,
        parent: &forest.parent,
        low: &low,
    };
    searched.set_flags(&mut flags);
    Ok(flags)
}
