//! The backtracking search for K5 and K3,3 as subgraphs, branch vertex by branch vertex.
ghost use Rattle.std.specs.Prelude.{◌≡◌, ◌<◌, ◌≤◌, ℕ, true, length, IsTrue, IfOk, MatchOption};
ghost use Rattle.graphs.specs.Graphs.{has_edge};
ghost use Rattle.kuratowski.specs.Witnesses.{branch_count as branches_of, IsWitness};
ghost use Rattle.embed_witnesses.specs.Kept.{HasPlain};
ghost use Rattle.embed_witnesses.specs.Plain.{NoneBegins, NoneContinues, HasLive};

use crate::plain_witnesses::branch_pairs::is_pair;
use crate::plain_witnesses::chosen_branches::as_witness;
use graphs::Graph;
use kuratowski::{Kind, Witness};
use map_lists::VertexId;
use std::alloc::{AllocError, Global};

/// Returns a witness of `graph` all of whose paths are single edges, or None where the graph has neither K5 nor K3,3 as
/// a subgraph. It fails only when out of memory.
///
/// Branch by branch all vertices that have edges are tried, so it is quick only where few have.
pub fn plain_witness(alloc: Global, graph: &Graph) -> Result<Option<Witness>, AllocError>
    ensures { IfOk result (λ found. MatchOption found (¬ HasPlain graph.now) (λ w. IsWitness graph.now w.kind w.branch w.paths)) }
{
    let live = live_vertices(alloc, graph)?;
    let five = PlainSearch {
        alloc,
        graph,
        kind: Kind::K5,
        live: &live,
    };
    match begun(&five, &[])? {
        Some(w) => return Ok(Some(w)),
        None => {}
    }
    let three = PlainSearch {
        alloc,
        graph,
        kind: Kind::K33,
        live: &live,
    };
    begun(&three, &[])
}

// Returns the vertices of `graph` that have edges, in rising order. It fails only when out of memory.
fn live_vertices(alloc: Global, graph: &Graph) -> Result<Vec<u16>, AllocError>
    ensures { IfOk result (λ live. HasLive graph.now live.items) }
{
    let mut live = Vec::new(alloc);
    for v in 0..graph.n() {
        if has_edges(graph, v) {
            live.push(v)?;
        }
    }
    Ok(live)
}

// Says whether vertex `v` of `graph` has an edge.
fn has_edges(graph: &Graph, v: u16) -> bool
    ensures { (u : ℕ) → has_edge graph.now v u ≡ true → IsTrue result }
{
    for u in 0..graph.n() {
        if graph.has(VertexId(v), VertexId(u)) {
            return true;
        }
    }
    false
}

// A search of a graph for K5 or K3,3 as a part; the vertices in `live` are those that have edges.
#[derive(Clone, Copy)]
struct PlainSearch<'a> {
    alloc: Global,
    graph: &'a Graph,
    kind: Kind,
    live: &'a [u16],
}

// Returns a witness of `search.graph` of kind `search.kind` with single edges as paths and `chosen` as its first
// branches, or None if there is none. `chosen` is no longer than their number. It fails only when out of memory.
#[cycle(choices)]
fn begun(search: &PlainSearch<'_>, chosen: &[u16]) -> Result<Option<Witness>, AllocError>
    requires live { HasLive search.now.graph.now search.now.live.now }
    requires few { length chosen.now ≤ branches_of search.now.kind }
    ensures { IfOk result (λ found. MatchOption found (NoneBegins search.now.graph.now search.now.kind chosen.now) (λ w. IsWitness search.now.graph.now w.kind w.branch w.paths)) }
{
    if chosen.len() >= search.kind.branch_count() {
        return as_witness(search.alloc, search.graph, search.kind, chosen);
    }
    for i in 0..search.live.len() {
        match continued(search, chosen, search.live[i])? {
            Some(w) => return Ok(Some(w)),
            None => {}
        }
    }
    Ok(None)
}

// Like `begun`, but returns a witness whose first branches are those in `chosen` and then `v`. It returns None at once
// where the graph lacks an edge from `v` to a chosen branch that the kind joins to it.
#[cycle(choices)]
fn continued(
    search: &PlainSearch<'_>,
    chosen: &[u16],
    v: u16,
) -> Result<Option<Witness>, AllocError>
    requires live { HasLive search.now.graph.now search.now.live.now }
    requires few { length chosen.now < branches_of search.now.kind }
    ensures { IfOk result (λ found. MatchOption found (NoneContinues search.now.graph.now search.now.kind chosen.now v) (λ w. IsWitness search.now.graph.now w.kind w.branch w.paths)) }
{
    for i in 0..chosen.len() {
        if is_pair(search.kind, i, chosen.len())
            && !search.graph.has(VertexId(chosen[i]), VertexId(v))
        {
            return Ok(None);
        }
    }
    let mut longer = Vec::from_slice(search.alloc, chosen)?;
    longer.push(v)?;
    begun(search, &longer)
}
