//! The public call `embed`: a map of a graph or a Kuratowski witness, by the fast left-right test with checked answers.
ghost use Rattle.std.specs.Prelude.{◌≡◌, ◌<◌, ◌≤◌, length, IfOk, IfSome, IsTrue};
ghost use Rattle.map_lists.specs.Lists.{Lists};
ghost use Rattle.kuratowski.specs.Witnesses.{IsWitness};
ghost use Rattle.embed_theorem.specs.Expanded.{IsMapOf};
ghost use Rattle.embed_graph.specs.Embeddings.{IsEmbedding};
ghost use Rattle.embed_graph.specs.Found.{IsTested};

use crate::contracted_embeddings::contracted_witness;
use crate::edge_test::EdgeTest;
use crate::graph_embeddings::Embedding;
use conn_parts::plane_count;
use embed_search::Tables;
use euler_faces::Counter;
use graphs::Graph;
use kuratowski::{Witness, check_witness};
use left_right_lists::map_of_graph;
use map_lists::Rotations;
use refusals::Unserved;
use std::alloc::{AllocError, Global};

// Returns `lists`, one for each of the at least three vertices of `graph`, if they are found to be those of a map of
// genus zero of it. None promises nothing. It fails only when out of memory.
fn checked_map(
    alloc: Global,
    graph: &Graph,
    lists: Rotations,
) -> Result<Option<Rotations>, AllocError>
    requires some { 3 ≤ graph.now.n }
    requires vertices { length lists ≡ graph.now.n }
    ensures { IfOk result (λ found. IfSome found (λ map. IsMapOf map graph.now)) }
{
    let _n = graph.n();
    match plane_count(&mut Counter::new(alloc), &lists, 3) {
        Ok(_) => {
            if EdgeTest::new(alloc).has_edges(graph, &lists)? {
                Ok(Some(lists))
            } else {
                Ok(None)
            }
        }
        Err(Unserved::NoMemory) => Err(AllocError),
        Err(Unserved::Refused(_)) => Ok(None),
    }
}

/// The answer of the left-right test to a graph.
#[derive(Drop)]
pub enum Tested {
    /// A map of it.
    Map(Rotations),
    /// It has no map of genus zero.
    NoMap,
}

// Runs the left-right test on `graph`, of at least three vertices, in `tables`, which keep its state, and checks its
// lists. Where they are not accepted, `map_of_graph`, the slow test by sides, decides. Fails only when out of memory.
pub(crate) fn test_graph(
    alloc: Global,
    tables: &mut Tables,
    graph: &Graph,
) -> Result<Tested, AllocError>
    requires { 3 ≤ graph.now.n }
    ensures { IfOk result (IsTested graph.now) }
{
    match tables.planar_lists(alloc, graph)? {
        Some(lists) => match checked_map(alloc, graph, lists)? {
            Some(map) => Ok(Tested::Map(map)),
            // no graph is known for which this happens
            None => match map_of_graph(alloc, graph)? {
                Some(map) => Ok(Tested::Map(map)),
                None => Ok(Tested::NoMap),
            },
        },
        None => Ok(Tested::NoMap),
    }
}

// Returns the witness that `tables` find after the test refused `graph`, if the witness check accepts it, else None.
// The search overwrites the state of the test. It fails only when out of memory.
pub(crate) fn found_witness(
    alloc: Global,
    tables: &mut Tables,
    graph: &Graph,
) -> Result<Option<Witness>, AllocError>
    ensures { IfOk result (λ found. IfSome found (λ w. IsWitness graph.now w.kind w.branch w.paths)) }
{
    match tables.witness(alloc)? {
        Some(witness) => {
            if check_witness(graph, &witness).is_yes() {
                Ok(Some(witness))
            } else {
                Ok(None)
            }
        }
        None => Ok(None),
    }
}

// Returns a witness of `graph`, which has at least three vertices and no map. It is the one that the search in `tables`
// finds after the test, or else one by contracted edges. It fails only when out of memory.
pub(crate) fn refuted(
    alloc: Global,
    tables: &mut Tables,
    graph: &Graph,
) -> Result<Witness, AllocError>
    requires some { 3 ≤ graph.now.n }
    requires none { (lists : Lists) → ¬ IsMapOf lists graph.now }
    ensures { IfOk result (λ w. IsWitness graph.now w.kind w.branch w.paths) }
{
    let _n = graph.n();
    match found_witness(alloc, tables, graph)? {
        Some(witness) => Ok(witness),
        // no graph is known for which this happens
        None => contracted_witness(alloc, graph),
    }
}

/// Returns a simple map of genus zero with exactly the edges of `graph`, which has at least three vertices, or a
/// witness that there is none. It fails only when out of memory.
///
/// The left-right test makes the map; its lists are checked, and it is proved right where it finds none. A witness is
/// one of the first 3n - 5 edges of the graph's line, where it has more. Where the search for it finds none that is
/// accepted, edges are contracted as long as the test refuses the graph. The test is not proved to find each map: where
/// its lists are not accepted, `map_of_graph` gives the answer. No graph is known for which either happens.
pub fn embed(alloc: Global, graph: &Graph) -> Result<Embedding, AllocError>
    requires { 3 ≤ graph.now.n }
    ensures { IfOk result (IsEmbedding graph.now) }
{
    let mut tables = Tables::new(alloc);
    match test_graph(alloc, &mut tables, graph)? {
        Tested::Map(map) => Ok(Embedding::Map(map)),
        Tested::NoMap => {
            let witness = refuted(alloc, &mut tables, graph)?;
            Ok(Embedding::NotPlanar(witness))
        }
    }
}
