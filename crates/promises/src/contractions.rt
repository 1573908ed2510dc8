//! Promised contracts of contracted edges of graphs, and of witnesses carried over them.
ghost use Rattle.std.specs.Prelude.{◌≡◌, ◌<◌, ◌≤◌, ◌↔◌, IsTrue, IfOk, true};
ghost use Rattle.conn_parts.specs.GraphLists.{graph_lists as lists_of_graph};
ghost use Rattle.convex_peeling.specs.Polyhedral.{IsThreeConnected};
ghost use Rattle.embed_contraction.specs.Contracted.{IsContraction};
ghost use Rattle.embed_witnesses.specs.ContractedEdges.{contraction};
ghost use Rattle.embed_witnesses.specs.Contractible.{IsLeastContractible};
ghost use Rattle.graphs.specs.Graphs.{has_edge};
ghost use Rattle.kuratowski.specs.Witnesses.{IsWitness};

use graphs::Graph;
use kuratowski::Witness;
use map_lists::Ends;
use std::alloc::{AllocError, Global};

/// Tells whether `graph` is three-connected.
pub fn is_three_connected(alloc: Global, graph: &Graph) -> Result<bool, AllocError>
    requires { 0 < graph.now.n }
    ensures { IfOk result (λ yes. IsTrue yes ↔ IsThreeConnected (lists_of_graph graph.now)) }
{
    embed_witnesses::graph_contractions::is_three_connected(alloc, graph)
}

/// Returns the least edge of a three-connected `graph` whose contraction is three-connected.
pub fn contractible_edge(alloc: Global, graph: &Graph) -> Result<Ends, AllocError>
    requires five { 5 ≤ graph.now.n }
    requires three { IsThreeConnected (lists_of_graph graph.now) }
    ensures { IfOk result (λ e. IsLeastContractible graph.now e.a.0 e.b.0) }
{
    embed_graph::contractible_edge(alloc, graph)
}

/// Contracts the edge `e` of `graph`.
pub fn contract(alloc: Global, graph: &Graph, e: Ends) -> Result<Graph, AllocError>
    requires edge { has_edge graph.now e.a.0 e.b.0 ≡ true }
    ensures graph { IfOk result (λ small. small ≡ contraction graph.now e.a.0 e.b.0) }
    ensures meaning { IfOk result (λ small. IsContraction graph.now small e.a.0 e.b.0) }
{
    embed_graph::contract(alloc, graph, e)
}

/// Turns a witness of `graph` with `e` contracted into one of `graph`.
pub fn lift(alloc: Global, graph: &Graph, e: Ends, small: &Witness) -> Result<Witness, AllocError>
    requires edge { has_edge graph.now e.a.0 e.b.0 ≡ true }
    requires accepted { IsWitness (contraction graph.now e.a.0 e.b.0) small.now.kind small.now.branch small.now.paths }
    ensures { IfOk result (λ w. IsWitness graph.now w.kind w.branch w.paths) }
{
    embed_graph::lift(alloc, graph, e, small)
}
