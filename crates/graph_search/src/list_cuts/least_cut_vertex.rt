//! The least cut vertex of rotation lists, and the first flag that is set.
ghost use Rattle.std.specs.Prelude.{◌≡◌, ◌<◌, ◌≤◌, ℕ, true, false, length, slice_index_or, MatchOption, IfOk};
ghost use Rattle.graph_search.specs.Forests.{IsAdjacency, IsForestOf};
ghost use Rattle.graph_search.specs.Lows.{AreLows};
ghost use Rattle.graph_search.specs.Cuts.{IsCutVertex, IsLeastCutVertex};

use crate::search_forests::{Forest, Searched, low_points, search_forest};
use map_lists::Rotations;
use std::alloc::{AllocError, Global};

// Returns the first index from `from` on at which `flags` is set, or None if there is none.
pub(crate) fn first_set(flags: &[bool], from: usize) -> Option<usize>
    requires { length flags.now < 4096 }
    ensures none { MatchOption result ((i : ℕ) → from ≤ i → i < length flags.now → slice_index_or flags.now i false ≡ false) (λ i. (i < length flags.now) × (from ≤ i) × (slice_index_or flags.now i false ≡ true) × ((k : ℕ) → from ≤ k → k < i → slice_index_or flags.now k false ≡ false)) }
{
    for i in from..flags.len() {
        if flags[i] {
            return Some(i);
        }
    }
    None
}

/// Returns the least cut vertex of `lists`, in which adjacency goes both ways, by a search `forest` of them and its low
/// points `low`; None exactly where there is none.
pub fn searched_cut_vertex(lists: &Rotations, forest: &Forest, low: &[u16]) -> Option<u16>
    requires adjacency { IsAdjacency lists.now }
    requires forest { IsForestOf lists.now forest.now.order.items forest.now.number.items forest.now.last.items forest.now.parent.items }
    requires lows { AreLows lists.now forest.now.number.items forest.now.last.items low.now }
    ensures { MatchOption result ((v : ℕ) → ¬ IsCutVertex lists.now v) (λ v. IsLeastCutVertex lists.now v) }
{
    lists.facts();
    let searched = Searched {
        lists,
        number: &forest.number,
        parent: &forest.parent,
        low,
    };
    for v in 0..lists.len() {
        if searched.has_separated(v as u16) {
            return Some(v as u16);
        }
    }
    None
}

/// Returns the least cut vertex of lists in which adjacency goes both ways, or None exactly where there is none, in
/// time linear in the entries. It fails only when out of memory.
pub fn list_cut_vertex(alloc: Global, lists: &Rotations) -> Result<Option<u16>, AllocError>
    requires adjacency { IsAdjacency lists.now }
    ensures { IfOk result (λ found. MatchOption found ((v : ℕ) → ¬ IsCutVertex lists.now v) (λ v. IsLeastCutVertex lists.now v)) }
{
    let forest = search_forest(alloc, lists)?;
    let low = low_points(alloc, lists, &forest)?;
    Ok(searched_cut_vertex(lists, &forest, &low))
}
