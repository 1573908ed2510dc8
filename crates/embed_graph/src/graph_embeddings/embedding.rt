//! The answer to a planarity question, as the type `Embedding`.
use kuratowski::Witness;
use map_lists::Rotations;

/// A map of a graph, or why there is none. Which graph it is of, is said by `IsEmbedding`.
#[derive(Drop)]
pub enum Embedding {
    /// A simple map of genus zero with exactly the edges of the graph.
    Map(Rotations),
    /// A subdivision of K5 or K3,3 in the graph.
    NotPlanar(Witness),
}
