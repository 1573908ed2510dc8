//! Tests whether a graph is three-connected.
ghost use Rattle.std.specs.Prelude.{◌<◌, ◌↔◌, IsTrue, IfOk};
ghost use Rattle.convex_peeling.specs.Polyhedral.{IsThreeConnected};
ghost use Rattle.conn_parts.specs.GraphLists.{graph_lists as lists_of_graph};

use conn_parts::graph_cuts::{graph_components, graph_cut_vertex, graph_separating_pair};
use graphs::Graph;
use std::alloc::{AllocError, Global};

/// Says whether `graph`, which has a vertex, has at least four, and is connected without cut vertices and separating
/// pairs. It fails only when out of memory.
pub fn is_three_connected(alloc: Global, graph: &Graph) -> Result<bool, AllocError>
    requires { 0 < graph.now.n }
    ensures { IfOk result (λ yes. IsTrue yes ↔ IsThreeConnected (lists_of_graph graph.now)) }
{
    if graph.n() < 4 {
        return Ok(false);
    }
    let parts = graph_components(alloc, graph)?;
    if parts.count() != 1 {
        return Ok(false);
    }
    match graph_cut_vertex(alloc, graph)? {
        Some(_) => Ok(false),
        None => match graph_separating_pair(alloc, graph)? {
            Some(_) => Ok(false),
            None => Ok(true),
        },
    }
}
