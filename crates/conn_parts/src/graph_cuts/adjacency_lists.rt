//! Bare graphs as adjacency lists, in rising order.
ghost use Rattle.std.specs.Prelude.{◌≡◌, ◌<◌, ◌++◌, ◌∷◌, [], List, ℕ, length, IfOk};
ghost use Rattle.std.specs.List.{filter};
ghost use Rattle.graphs.specs.Graphs.{has_edge};
ghost use Rattle.conn_parts.specs.GraphLists.{neighbours_below, graph_lists as lists_of_graph};

use graphs::Graph;
use map_lists::{ItemLists, Rotations, VertexId};
use std::alloc::{AllocError, Global};

// Appends `u` to the last of `lists`, if an edge of `graph` joins it to `v`.
fn append_joined(
    lists: &mut ItemLists<u16>,
    graph: &Graph,
    v: u16,
    u: u16,
) -> Result<(), AllocError>
    requires { 0 < length lists.old }
    ensures { IfOk result (λ _. (before : List (List ℕ)) (last : List ℕ) → lists.old ≡ before ++ last ∷ [] → lists.new ≡ before ++ (last ++ filter (λ x. has_edge graph.now v x) (u ∷ [])) ∷ []) }
{
    if graph.has(VertexId(v), VertexId(u)) {
        lists.append(u)
    } else {
        Ok(())
    }
}

// Appends to `lists` the list of the neighbours of `v` in `graph`.
fn push_neighbours(lists: &mut ItemLists<u16>, graph: &Graph, v: u16) -> Result<(), AllocError>
    ensures { IfOk result (λ _. lists.new ≡ lists.old ++ neighbours_below graph.now v graph.now.n ∷ []) }
{
    lists.open()?;
    for u in 0..graph.n() {
        append_joined(lists, graph, v, u)?;
    }
    Ok(())
}

/// Returns for each vertex of `graph` its neighbours, in rising order. It fails only when out of memory.
pub fn graph_lists(alloc: Global, graph: &Graph) -> Result<Rotations, AllocError>
    ensures { IfOk result (λ lists. lists ≡ lists_of_graph graph.now) }
{
    let mut lists = ItemLists::new(alloc);
    for v in 0..graph.n() {
        push_neighbours(&mut lists, graph, v)?;
    }
    Ok(Rotations::from_lists(lists))
}
