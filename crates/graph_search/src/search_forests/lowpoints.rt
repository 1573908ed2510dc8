//! Low points: for each vertex the least search number adjacent to it or to a descendant of it.
ghost use Rattle.std.specs.Prelude.{◌≡◌, ◌<◌, length, replicate, IfOk, min};
ghost use Rattle.graph_search.specs.Forests.{IsAdjacency, IsForestOf};
ghost use Rattle.graph_search.specs.Lows.{AreLows, IsLowered};

use crate::search_forests::forest::Forest;
use map_lists::Rotations;
use std::alloc::{AllocError, Global};

// Returns the lesser of two search numbers.
pub(crate) fn lesser(one: u16, other: u16) -> u16
    ensures { result ≡ min one other }
{
    if one < other { one } else { other }
}

// Lowers entry `v` of `low` to `least`, if it is greater. It changes nothing if `v` is out of range.
pub(crate) fn lower(low: &mut [u16], v: u16, least: u16)
    ensures { IsLowered low.old low.new v least }
{
    let v = v as usize;
    if v < low.len() {
        low[v] = lesser(low[v], least);
    }
}

// Fills `low`, in which all entries are the vertex count, with the low points of the search `forest`, from the vertex
// seen last to the first. Each lowers that of its parent.
pub(crate) fn fill_lows(lists: &Rotations, forest: &Forest, low: &mut [u16])
    requires in_range { IsAdjacency lists.now }
    requires forest { IsForestOf lists.now forest.now.order.items forest.now.number.items forest.now.last.items forest.now.parent.items }
    requires lows { low.old ≡ replicate (length lists.now) (length lists.now) }
    ensures { AreLows lists.now forest.now.number.items forest.now.last.items low.new }
{
    let n = lists.len();
    let number: &[u16] = &forest.number;
    for i in 0..n {
        let v = forest.order[n - 1 - i];
        let mut least = low[v as usize];
        for u in lists.list(v as usize) {
            least = lesser(least, number[*u as usize]);
        }
        low[v as usize] = least;
        lower(low, forest.parent[v as usize], least);
    }
}

/// Returns for each vertex of `lists` its low point in the search `forest`: the least search number adjacent to it or
/// to a descendant. It fails only when out of memory.
pub fn low_points(alloc: Global, lists: &Rotations, forest: &Forest) -> Result<Vec<u16>, AllocError>
    requires adjacency { IsAdjacency lists.now }
    requires forest { IsForestOf lists.now forest.now.order.items forest.now.number.items forest.now.last.items forest.now.parent.items }
    ensures { IfOk result (λ low. AreLows lists.now forest.now.number.items forest.now.last.items low.items) }
{
    let mut low = vec![in alloc; lists.len() as u16; lists.len()]?;
    fill_lows(lists, forest, &mut low);
    Ok(low)
}
