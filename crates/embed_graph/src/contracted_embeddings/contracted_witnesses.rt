//! The public call `contracted_witness`: contracts edges while a witness stays, and lifts the witness back.
ghost use Rattle.std.specs.Prelude.{◌<◌, IfOk};
ghost use Rattle.kuratowski.specs.Witnesses.{IsWitness};
ghost use Rattle.embed_contraction.specs.Traces.{HasWitness};

use crate::contracted_embeddings::kept_edges::kept_edge;
use embed_witnesses::contracted_graphs::contract;
use embed_witnesses::lifted_witnesses::lift;
use embed_witnesses::plain_witnesses::plain_witness;
use graphs::Graph;
use kuratowski::Witness;
use std::alloc::{AllocError, Global};

/// Returns a Kuratowski witness of `graph`, which has one. It fails only when out of memory.
///
/// An edge is contracted while a witness stays, and the witness of the smaller graph is lifted. Where no edge can be,
/// the graph has K5 or K3,3 as a part.
pub fn contracted_witness(alloc: Global, graph: &Graph) -> Result<Witness, AllocError>
    requires { HasWitness graph.now }
    ensures { IfOk result (λ w. IsWitness graph.now w.kind w.branch w.paths) }
{
    let n = graph.n();
    witness_within(alloc, graph, n + 1)
}

// Returns a Kuratowski witness of `graph`, which has one and fewer than `count` vertices.
fn witness_within(alloc: Global, graph: &Graph, count: u16) -> Result<Witness, AllocError>
    requires some { HasWitness graph.now }
    requires count { graph.now.n < count }
    ensures { IfOk result (λ w. IsWitness graph.now w.kind w.branch w.paths) }
{
    let _n = graph.n();
    match kept_edge(alloc, graph)? {
        Some(e) => {
            let small = contract(alloc, graph, e)?;
            let witness = witness_within(alloc, &small, count - 1)?;
            lift(alloc, graph, e, &witness)
        }
        None => match plain_witness(alloc, graph)? {
            Some(witness) => Ok(witness),
            None => unreachable!(),
        },
    }
}
