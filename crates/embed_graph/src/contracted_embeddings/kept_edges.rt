//! Finds an edge whose contraction leaves the graph nonplanar, so that a Kuratowski witness stays.
ghost use Rattle.std.specs.Prelude.{◌≡◌, ◌<◌, ◌↔◌, ℕ, true, IsTrue, IfOk, MatchOption};
ghost use Rattle.graphs.specs.Graphs.{has_edge};
ghost use Rattle.embed_contraction.specs.Traces.{HasWitness};
ghost use Rattle.embed_witnesses.specs.Kept.{IsKept};

use crate::fast_embeddings::{Tested, test_graph};
use embed_search::Tables;
use embed_witnesses::contracted_graphs::contract;
use graphs::Graph;
use left_right_lists::has_map;
use map_lists::{Ends, VertexId};
use std::alloc::{AllocError, Global};

// Says whether `graph` has a Kuratowski witness, which is so exactly where it has no map. The left-right test decides,
// and the slow test where there are too few vertices for it.
fn has_witness(alloc: Global, graph: &Graph) -> Result<bool, AllocError>
    requires { 0 < graph.now.n }
    ensures { IfOk result (λ yes. IsTrue yes ↔ HasWitness graph.now) }
{
    let n = graph.n();
    if n < 3 {
        let planar = has_map(alloc, graph)?;
        return Ok(!planar);
    }
    let mut tables = Tables::new(alloc);
    match test_graph(alloc, &mut tables, graph)? {
        Tested::Map(_) => Ok(false),
        Tested::NoMap => Ok(true),
    }
}

// Returns the first edge with lesser end `u` whose contraction leaves a witness, or None. Fails if out of memory.
fn kept_above(alloc: Global, graph: &Graph, u: u16) -> Result<Option<Ends>, AllocError>
    requires { u < graph.now.n }
    ensures { IfOk result (λ found. MatchOption found ((b : ℕ) → ¬ IsKept graph.now u b) (λ e. IsKept graph.now e.a.0 e.b.0)) }
{
    let n = graph.n();
    for v in u + 1..n {
        let e = Ends {
            a: VertexId(u),
            b: VertexId(v),
        };
        if graph.has(e.a, e.b) {
            let small = contract(alloc, graph, e)?;
            if has_witness(alloc, &small)? {
                return Ok(Some(e));
            }
        }
    }
    Ok(None)
}

/// Returns the first edge of `graph` whose contraction leaves a witness, or None. Fails only when out of memory.
pub(crate) fn kept_edge(alloc: Global, graph: &Graph) -> Result<Option<Ends>, AllocError>
    ensures { IfOk result (λ found. MatchOption found ((a b : ℕ) → ¬ IsKept graph.now a b) (λ e. IsKept graph.now e.a.0 e.b.0)) }
{
    for u in 0..graph.n() {
        match kept_above(alloc, graph, u)? {
            Some(e) => return Ok(Some(e)),
            None => {}
        }
    }
    Ok(None)
}
