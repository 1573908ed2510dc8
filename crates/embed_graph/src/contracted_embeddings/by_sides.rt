//! The public call `embed_by_sides`, which returns a map made by sides of edges or a witness by contracted edges.
ghost use Rattle.std.specs.Prelude.{◌<◌, IfOk};
ghost use Rattle.embed_graph.specs.Embeddings.{IsEmbedding};

use crate::contracted_embeddings::contracted_witnesses::contracted_witness;
use crate::graph_embeddings::Embedding;
use graphs::Graph;
use left_right_lists::map_of_graph;
use std::alloc::{AllocError, Global};

/// Returns a simple map of genus zero with exactly the edges of `graph`, which has a vertex, or a Kuratowski witness
/// that there is none. It fails only when out of memory.
///
/// The map is made by the sides of edges that return along a depth-first tree, and the witness by contracted edges. No
/// fast search is asked for the map, so it is not fast; it takes polynomial time.
pub fn embed_by_sides(alloc: Global, graph: &Graph) -> Result<Embedding, AllocError>
    requires { 0 < graph.now.n }
    ensures { IfOk result (IsEmbedding graph.now) }
{
    let _n = graph.n();
    match map_of_graph(alloc, graph)? {
        Some(map) => Ok(Embedding::Map(map)),
        None => {
            let witness = contracted_witness(alloc, graph)?;
            Ok(Embedding::NotPlanar(witness))
        }
    }
}
