//! Graphs read from the caller's arrays of edges.
ghost use Rattle.std.specs.Prelude.{◌≡◌, ◌<◌, ◌≤◌, ◌↔◌, map, length, All, IsTrue, IfOk, IfErr};
ghost use Rattle.graphs.specs.Graphs.{ComesBefore, edge_of};
ghost use Rattle.pigale_c.specs.EdgeFailures.{AreFew, IsEdgeFailure, IsGraphOf};
ghost use Rattle.pigale_c.specs.EdgeLists.{edge_at, AreEdgesOf, IsEdge, RiseFrom};
ghost use Rattle.pigale_c.specs.Embedded.{graph_in};

use crate::edge_faults::{first_improper, first_twice};
use crate::edge_orders::{repeated_in, sorted_edges};
use crate::outcome::Failure;
use graphs::Graph;
use map_lists::{Ends, VertexId};
use std::alloc::{AllocError, Global};

/// An edge of a graph, by its two ends, in either order.
#[repr(C)]
#[derive(Clone, Copy)]
pub struct EdgeEnds {
    /// The one end.
    pub a: u16,
    /// The other end.
    pub b: u16,
}

// Says whether the edge `e` joins two of `n` vertices, the lesser first, and comes after the edge `last`: by the lesser
// end, and then by the greater.
fn is_next(n: u16, last: EdgeEnds, e: EdgeEnds) -> bool
    ensures { IsTrue result ↔ (IsEdge n e × ComesBefore (edge_at last) (edge_at e)) }
{
    e.a < e.b && e.b < n && (last.a < e.a || last.a == e.a && last.b < e.b)
}

// Says whether `edges` join vertices below `n`, the lesser end first, in rising order and each once.
fn are_edges(n: u16, edges: &[EdgeEnds]) -> bool
    ensures { IsTrue result ↔ RiseFrom n (record { a = 0; b = 0 }) edges.now }
{
    let mut last = EdgeEnds { a: 0, b: 0 };
    for edge in edges {
        if !is_next(n, last, *edge) {
            return false;
        }
        last = *edge;
    }
    true
}

// Converts `edges`, each with its lesser end first, to those of a graph. It fails only when out of memory.
fn stored_edges(alloc: Global, edges: &[EdgeEnds]) -> Result<Vec<Ends>, AllocError>
    requires { All (λ e. e.a < e.b) edges.now }
    ensures { IfOk result (λ list. map edge_of list.items ≡ map edge_at edges.now) }
{
    let mut list = Vec::with_capacity(alloc, edges.len())?;
    for edge in edges {
        list.push(Ends {
            a: VertexId(edge.a),
            b: VertexId(edge.b),
        })?;
    }
    Ok(list)
}

/// The arrays of a graph, as they are given: its number of vertices, and its edges.
#[derive(Clone, Copy)]
pub(crate) struct GraphArrays<'a> {
    pub(crate) alloc: Global,
    pub(crate) n: usize,
    pub(crate) edges: &'a [EdgeEnds],
}

// Returns the graph on `n` vertices, at most 255, with these `edges`, in order and each once. Fails only when out of
// memory.
fn graph_in_order(alloc: Global, n: u16, edges: &[EdgeEnds]) -> Result<Graph, AllocError>
    requires few { n ≤ 255 }
    requires rise { RiseFrom n (record { a = 0; b = 0 }) edges.now }
    ensures { IfOk result (λ graph. graph ≡ graph_in n edges.now) }
{
    let list = stored_edges(alloc, edges)?;
    let graph = Graph::of_edges(alloc, n, &list)?;
    Ok(graph)
}

/// Returns `edges`, between `n` vertices, each with its lesser end first, in order and each once. It fails with the
/// first edge that is none between two vertices, or with two that join the same, and when out of memory.
pub(crate) fn rising_edges(
    alloc: Global,
    n: u16,
    edges: &[EdgeEnds],
) -> Result<Vec<EdgeEnds>, Failure>
    requires few { n < 4096 }
    requires size { length edges.now < 16777216 }
    ensures sorted { IfOk result (λ sorted. AreEdgesOf n edges.now sorted.items) }
    ensures rise { IfOk result (λ sorted. RiseFrom n (record { a = 0; b = 0 }) sorted.items) }
    ensures failed { IfErr result (IsEdgeFailure (Unit {0}) n edges.now) }
{
    if let Some(fault) = first_improper(n, edges) {
        return Err(Failure::BadEdge(fault));
    }
    let sorted = sorted_edges(alloc, n, edges)?;
    if are_edges(n, &sorted) {
        return Ok(sorted);
    }
    let twin = repeated_in(n, &sorted);
    match first_twice(n, edges, twin.a, twin.b) {
        Some(fault) => Err(Failure::BadEdge(fault)),
        // what stands twice in order stands twice in the array
        None => unreachable!(),
    }
}

/// Returns the graph of `given`, whose edges come in any order and either way round. It fails with `BadArgument` where
/// there are more than 255 vertices or 2^24 edges or more, with a fault of the edges, and when out of memory.
pub(crate) fn graph_of(given: &GraphArrays<'_>) -> Result<Graph, Failure>
    ensures graph { IfOk result (IsGraphOf given.now.n given.now.edges.now) }
    ensures given { IfOk result (λ graph. AreFew given.now.n given.now.edges.now) }
    ensures failed { IfErr result (IsEdgeFailure (AreFew given.now.n given.now.edges.now) given.now.n given.now.edges.now) }
{
    if given.n > 255 || given.edges.len() >= 16_777_216 {
        return Err(Failure::BadArgument);
    }
    let (alloc, n) = (given.alloc, given.n as u16);
    if are_edges(n, given.edges) {
        let graph = graph_in_order(alloc, n, given.edges)?;
        return Ok(graph);
    }
    let sorted = rising_edges(alloc, n, given.edges)?;
    let graph = graph_in_order(alloc, n, &sorted)?;
    Ok(graph)
}
