//! Promised contracts of components, cut vertices and separating pairs, of maps and of graphs.
ghost use Rattle.std.specs.Prelude.{◌≡◌, ◌<◌, IfOk, length, slice_index, ℕ, MatchOption};
ghost use Rattle.conn_parts.specs.GraphLists.{graph_lists as lists_of_graph};
ghost use Rattle.conn_parts.specs.Parts.{ArePartsOf};
ghost use Rattle.euler_faces.specs.FaceWalks.{AreFaces};
ghost use Rattle.graph_search.specs.Cuts.{IsCutVertex, IsLeastCutVertex, IsSeparatingPair, IsLeastPair};
ghost use Rattle.map_theory.specs.Maps.{IsPlane};

use conn_parts::Parts;
use euler_faces::Faces;
use graphs::Graph;
use half_edges::HalfMap;
use map_lists::VertexId;
use std::alloc::{AllocError, Global};

/// Returns the components of `map`.
pub fn components(alloc: Global, map: &HalfMap) -> Result<Parts, AllocError>
    ensures { IfOk result (ArePartsOf map.now.lists) }
{
    conn_parts::components(alloc, map)
}

/// Returns the number of components.
pub fn count_of_components(parts: &Parts) -> u16
    ensures { result ≡ parts.now.count }
{
    parts.count()
}

/// Returns the number of the component of `v`.
pub fn component_of(parts: &Parts, v: VertexId) -> u16
    requires { v.0 < length parts.now.numbers }
    ensures { result ≡ slice_index parts.now.numbers v.0 }
{
    parts.of(v)
}

/// Returns the least cut vertex of `map`, or None where it has none.
pub fn cut_vertex(alloc: Global, map: &HalfMap) -> Result<Option<VertexId>, AllocError>
    ensures { IfOk result (λ found. MatchOption found ((v : ℕ) → ¬ IsCutVertex map.now.lists v) (λ v. IsLeastCutVertex map.now.lists v.0)) }
{
    conn_parts::cut_vertex(alloc, map)
}

/// Returns the least separating pair of `map`, or None where it has none.
pub fn separating_pair(
    alloc: Global,
    map: &HalfMap,
) -> Result<Option<(VertexId, VertexId)>, AllocError>
    ensures { IfOk result (λ found. MatchOption found ((u v : ℕ) → ¬ IsSeparatingPair map.now.lists u v) (λ p. IsLeastPair map.now.lists p.0.0 p.1.0)) }
{
    conn_parts::separating_pair(alloc, map)
}

/// Returns the least separating pair of `map`, without cut vertex and of genus zero, by its `faces`, or None where it
/// has none.
pub fn separating_pair_by(
    alloc: Global,
    map: &HalfMap,
    faces: &Faces,
) -> Result<Option<(VertexId, VertexId)>, AllocError>
    requires plane { IsPlane map.now.lists }
    requires uncut { (v : ℕ) → ¬ IsCutVertex map.now.lists v }
    requires faces { AreFaces map.now faces.now }
    ensures { IfOk result (λ found. MatchOption found ((u v : ℕ) → ¬ IsSeparatingPair map.now.lists u v) (λ p. IsLeastPair map.now.lists p.0.0 p.1.0)) }
{
    convex_class::face_pairs::separating_pair_by(alloc, map, faces)
}

/// Returns the components of `graph`.
pub fn graph_components(alloc: Global, graph: &Graph) -> Result<Parts, AllocError>
    requires { 0 < graph.now.n }
    ensures { IfOk result (ArePartsOf (lists_of_graph graph.now)) }
{
    conn_parts::graph_components(alloc, graph)
}

/// Returns the least cut vertex of `graph`, or None where it has none.
pub fn graph_cut_vertex(alloc: Global, graph: &Graph) -> Result<Option<VertexId>, AllocError>
    requires { 0 < graph.now.n }
    ensures { IfOk result (λ found. MatchOption found ((v : ℕ) → ¬ IsCutVertex (lists_of_graph graph.now) v) (λ v. IsLeastCutVertex (lists_of_graph graph.now) v.0)) }
{
    conn_parts::graph_cut_vertex(alloc, graph)
}

/// Returns the least separating pair of `graph`, or None where it has none.
pub fn graph_separating_pair(
    alloc: Global,
    graph: &Graph,
) -> Result<Option<(VertexId, VertexId)>, AllocError>
    requires { 0 < graph.now.n }
    ensures { IfOk result (λ found. MatchOption found ((u v : ℕ) → ¬ IsSeparatingPair (lists_of_graph graph.now) u v) (λ p. IsLeastPair (lists_of_graph graph.now) p.0.0 p.1.0)) }
{
    conn_parts::graph_separating_pair(alloc, graph)
}
