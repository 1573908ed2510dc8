//! The public call `lift`, which tries all changes of a witness until one makes it a witness of the graph.
ghost use Rattle.std.specs.Prelude.{◌≡◌, true, IfOk};
ghost use Rattle.graphs.specs.Graphs.{has_edge};
ghost use Rattle.kuratowski.specs.Witnesses.{IsWitness};
ghost use Rattle.embed_witnesses.specs.ContractedEdges.{contraction};

use crate::lifted_witnesses::tried_changes::Lifting;
use crate::merged_ends::on_old_numbers;
use graphs::Graph;
use kuratowski::Witness;
use map_lists::Ends;
use std::alloc::{AllocError, Global};

/// Lifts `small`, a witness of the graph with edge `e` contracted, to one of `graph`. Fails only when out of memory.
///
/// On its old numbers the witness takes some neighbours of the greater end for neighbours of the lesser. It
/// is mended where one step lacks its edge, by the greater end put into it; or, with the ends exchanged, by
/// the lesser. Else it is one of K5 with the lesser end as a branch, and splits into one of K3,3.
pub fn lift(alloc: Global, graph: &Graph, e: Ends, small: &Witness) -> Result<Witness, AllocError>
    requires edge { has_edge graph.now e.a.0 e.b.0 ≡ true }
    requires accepted { IsWitness (contraction graph.now e.a.0 e.b.0) small.now.kind small.now.branch small.now.paths }
    ensures { IfOk result (λ w. IsWitness graph.now w.kind w.branch w.paths) }
{
    let _n = graph.n();
    let old = on_old_numbers(alloc, graph, e, small)?;
    let lifting = Lifting {
        alloc,
        graph,
        old: &old,
        e,
    };
    match lifting.mended(false)? {
        Some(w) => return Ok(w),
        None => {}
    }
    match lifting.mended(true)? {
        Some(w) => return Ok(w),
        None => {}
    }
    match lifting.split()? {
        Some(w) => Ok(w),
        None => unreachable!(),
    }
}
