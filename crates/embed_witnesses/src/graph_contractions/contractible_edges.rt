//! Finds the least edge that can be contracted so that the graph stays three-connected.
ghost use Rattle.std.specs.Prelude.{◌<◌, ◌≤◌, ℕ, IfOk, MatchOption};
ghost use Rattle.convex_peeling.specs.Polyhedral.{IsThreeConnected};
ghost use Rattle.conn_parts.specs.GraphLists.{graph_lists as lists_of_graph};
ghost use Rattle.embed_witnesses.specs.Contractible.{IsContractibleEdge, IsLeastContractible, IsLeastAbove};

use crate::contracted_graphs::contract;
use crate::graph_contractions::three_connected::is_three_connected;
use graphs::Graph;
use map_lists::{Ends, VertexId};
use std::alloc::{AllocError, Global};

/// Returns the least edge of a three-connected `graph` with at least five vertices that leaves a three-connected graph
/// when it is contracted. There is one by Thomassen's theorem. It fails only when out of memory.
pub fn contractible_edge(alloc: Global, graph: &Graph) -> Result<Ends, AllocError>
    requires five { 5 ≤ graph.now.n }
    requires three { IsThreeConnected (lists_of_graph graph.now) }
    ensures { IfOk result (λ e. IsLeastContractible graph.now e.a.0 e.b.0) }
{
    for u in 0..graph.n() {
        match contractible_above(alloc, graph, u)? {
            Some(e) => return Ok(e),
            None => {}
        }
    }
    unreachable!()
}

// Returns the least edge with lesser end `u` whose contraction leaves a three-connected graph, or None if none does.
fn contractible_above(alloc: Global, graph: &Graph, u: u16) -> Result<Option<Ends>, AllocError>
    requires { u < graph.now.n }
    ensures { IfOk result (λ found. MatchOption found ((v : ℕ) → ¬ IsContractibleEdge graph.now u v) (λ e. IsLeastAbove graph.now u e.a.0 e.b.0)) }
{
    let n = graph.n();
    for v in u + 1..n {
        let e = Ends {
            a: VertexId(u),
            b: VertexId(v),
        };
        if graph.has(e.a, e.b) {
            let small = contract(alloc, graph, e)?;
            if is_three_connected(alloc, &small)? {
                return Ok(Some(e));
            }
        }
    }
    Ok(None)
}
