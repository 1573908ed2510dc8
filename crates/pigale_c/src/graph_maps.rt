//! Calls for C that find a plane map of a graph without drawing it, or tell only whether it has one.
ghost use Rattle.std.specs.Prelude.{◌≤◌, IfOk, IfErr};
ghost use Rattle.embed_graph.specs.Embeddings.{IsEmbedding};
ghost use Rattle.pigale_c.specs.EdgeFailures.{AreFew, FailsOnEdges};
ghost use Rattle.pigale_c.specs.Embedded.{IsSmall, IsMapped, IsTested, OfGraph};
ghost use Rattle.pigale_c.specs.Numbers.{Reports, outcome_of};

use crate::edges::{EdgeEnds, GraphArrays, graph_of};
use crate::map_arrays::put_lists;
use crate::outcome::{Failure, Numbers, Outcome, report};
use crate::witness_paths::put_witness;
use embed_graph::{Embedding, embed};
use refusals::Refusal;
use std::alloc::Global;

// Returns a map of the graph `given`, or a witness that it has none; else why not.
fn embedding_of(given: &GraphArrays<'_>) -> Result<Embedding, Failure>
    ensures given { IfOk result (λ found. AreFew given.now.n given.now.edges.now) }
    ensures enough { IfOk result (λ found. 3 ≤ given.now.n) }
    ensures found { IfOk result (λ found. OfGraph given.now.n given.now.edges.now (λ graph. IsEmbedding graph found)) }
    ensures failed { IfErr result (FailsOnEdges (AreFew given.now.n given.now.edges.now) given.now.n given.now.edges.now (IsSmall given.now.n)) }
{
    let graph = graph_of(given)?;
    let n = given.n;
    if n < 3 {
        return Err(Failure::Refused(Refusal::Small(n as u16)));
    }
    let found = embed(given.alloc, &graph)?;
    Ok(found)
}

/// Tells whether the graph of `n` vertices and `edges` is planar. Returns a status: that it is, or the kind of a
/// subdivision that it has, or why it is not told. Writes the numbers beside it to `found`.
#[unsafe(no_mangle)]
pub extern "C" fn pigale_is_planar(
    alloc: Global,
    n: u16,
    edges: &[EdgeEnds],
    found: &mut Numbers,
) -> u8
    ensures { Reports (IsTested n edges.now) result found.new }
{
    let given = GraphArrays {
        alloc,
        n: n as usize,
        edges,
    };
    match embedding_of(&given) {
        Ok(Embedding::Map(_)) => report(Ok(Outcome::Served), found),
        Ok(Embedding::NotPlanar(witness)) => report(Ok(Outcome::NotPlanar(witness.kind)), found),
        Err(failure) => report(Err(failure), found),
    }
}

// Writes a plane map of the graph `given` to the fronts of `ends` and `neighbours`, or the paths of a witness. Returns
// `Served`, `NotPlanar`, or why neither, and then leaves both arrays as they were.
fn put_embedding(
    given: &GraphArrays<'_>,
    ends: &mut [usize],
    neighbours: &mut [u16],
) -> Result<Outcome, Failure>
    ensures { IsMapped given.now.n given.now.edges.now ends.old neighbours.old ends.new neighbours.new (outcome_of result) }
{
    let found = embedding_of(given)?;
    match found {
        Embedding::Map(lists) => {
            if !put_lists(lists.ends(), lists.entries(), ends, neighbours) {
                return Err(Failure::BadArgument);
            }
            Ok(Outcome::Served)
        }
        Embedding::NotPlanar(witness) => put_witness(given.alloc, &witness, ends, neighbours),
    }
}

/// Writes a plane map of the graph of `n` vertices and `edges` to `ends` and `neighbours`, which have room for it. Where
/// the graph is not planar, the paths of a witness go there. Returns a status, and writes the numbers beside it
/// to `found`.
#[unsafe(no_mangle)]
pub extern "C" fn pigale_map_of_graph(
    alloc: Global,
    n: u16,
    edges: &[EdgeEnds],
    ends: &mut [usize],
    neighbours: &mut [u16],
    found: &mut Numbers,
) -> u8
    ensures { Reports (IsMapped n edges.now ends.old neighbours.old ends.new neighbours.new) result found.new }
{
    let given = GraphArrays {
        alloc,
        n: n as usize,
        edges,
    };
    report(put_embedding(&given, ends, neighbours), found)
}
