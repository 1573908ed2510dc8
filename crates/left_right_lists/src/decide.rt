//! Whether a graph has a map of genus zero, and such a map.
ghost use Rattle.std.specs.Prelude.{◌↔◌, IsTrue, IfOk, MatchOption};
ghost use Rattle.map_lists.specs.Lists.{Lists};
ghost use Rattle.embed_theorem.specs.Expanded.{IsMapOf};
ghost use Rattle.left_right_lists.specs.Decided.{HasMap};

use crate::return_edges::{RootedGraph, upward_of};
use crate::side_tables::sides_of;
use graphs::Graph;
use map_lists::Rotations;
use std::alloc::{AllocError, Global};

/// Returns the rotation lists of a map of genus zero of `graph`, or None if it has none. Fails only when out of memory.
///
/// It takes polynomial time, and is not fast.
pub fn map_of_graph(alloc: Global, graph: &Graph) -> Result<Option<Rotations>, AllocError>
    ensures { IfOk result (λ found. MatchOption found ((lists : Lists) → ¬ IsMapOf lists graph.now) (λ lists. IsMapOf lists graph.now)) }
{
    if graph.n() == 0 {
        return Ok(None);
    }
    let up = upward_of(alloc, graph)?;
    let Some(sides) = sides_of(alloc, &up)? else {
        return Ok(None);
    };
    let rooted = RootedGraph {
        graph,
        tree: &up.tree,
    };
    let entries = rooted.all_entries(alloc, &sides)?;
    Ok(Some(rooted.rotation_lists(alloc, &entries)?))
}

/// Says whether `graph` has a map of genus zero, by [`map_of_graph`]. It fails only when out of memory.
///
/// It takes polynomial time, and is not fast.
pub fn has_map(alloc: Global, graph: &Graph) -> Result<bool, AllocError>
    ensures { IfOk result (λ yes. IsTrue yes ↔ HasMap graph.now) }
{
    match map_of_graph(alloc, graph)? {
        Some(_) => Ok(true),
        None => Ok(false),
    }
}
