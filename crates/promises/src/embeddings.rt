//! Promised contracts of embeddings of graphs, or witnesses that there are none.
ghost use Rattle.std.specs.Prelude.{◌<◌, ◌≤◌, ◌≡◌, ◌↔◌, length, IsTrue, IfOk, MatchOption};
ghost use Rattle.map_lists.specs.Lists.{Lists};
ghost use Rattle.embed_theorem.specs.Expanded.{IsMapOf};
ghost use Rattle.left_right_lists.specs.Decided.{HasMap};
ghost use Rattle.embed_graph.specs.Embeddings.{IsEmbedding};
ghost use Rattle.embed_graph.specs.Figures.{IsEmbedFigure};

use embed_graph::Embedding;
use embed_graph::embed_figures::{EmbedFigure, Embedder};
use graphs::Graph;
use map_lists::Rotations;
use std::alloc::{AllocError, Global};

/// Returns a map of genus zero with the edges of `graph`, or a subdivision of K5 or K3,3.
pub fn embed(alloc: Global, graph: &Graph) -> Result<Embedding, AllocError>
    requires { 3 ≤ graph.now.n }
    ensures { IfOk result (IsEmbedding graph.now) }
{
    embed_graph::embed(alloc, graph)
}

/// Returns rotation lists for `graph`, as the left-right test finds them, or none where it has no map of genus zero.
pub fn planar_lists(alloc: Global, graph: &Graph) -> Result<Option<Rotations>, AllocError>
    ensures { IfOk result (λ found. MatchOption found ((lists : Lists) → ¬ IsMapOf lists graph.now) (λ lists. length lists ≡ graph.now.n)) }
{
    embed_search::planar_lists(alloc, graph)
}

/// Tells whether `graph` has a map of genus zero, by the sides that the forks of a depth-first tree demand.
pub fn has_map(alloc: Global, graph: &Graph) -> Result<bool, AllocError>
    ensures { IfOk result (λ yes. IsTrue yes ↔ HasMap graph.now) }
{
    left_right_lists::has_map(alloc, graph)
}

/// Returns a map of genus zero with the edges of `graph`, made by their sides, or none where there is no such map.
pub fn map_of_graph(alloc: Global, graph: &Graph) -> Result<Option<Rotations>, AllocError>
    ensures { IfOk result (λ found. MatchOption found ((lists : Lists) → ¬ IsMapOf lists graph.now) (λ lists. IsMapOf lists graph.now)) }
{
    left_right_lists::map_of_graph(alloc, graph)
}

/// Returns a map of genus zero with the edges of `graph`, made by their sides, or a subdivision of K5 or K3,3.
pub fn embed_by_sides(alloc: Global, graph: &Graph) -> Result<Embedding, AllocError>
    requires { 0 < graph.now.n }
    ensures { IfOk result (IsEmbedding graph.now) }
{
    embed_graph::contracted_embeddings::embed_by_sides(alloc, graph)
}

/// Returns a drawn map of genus zero with the edges of `graph`, or a subdivision of K5 or K3,3, by an `embedder` that
/// may have embedded others before.
pub fn embed_figure(embedder: &mut Embedder, graph: &Graph) -> Result<EmbedFigure, AllocError>
    requires { 3 ≤ graph.now.n }
    ensures { IfOk result (IsEmbedFigure graph.now) }
{
    embedder.figure(graph)
}
