//! The public calls for components, the least cut vertex and the least separating pair of a bare graph.
ghost use Rattle.std.specs.Prelude.{◌≡◌, ◌<◌, ℕ, length, MatchOption, IfOk};
ghost use Rattle.conn_parts.specs.Parts.{ArePartsOf};
ghost use Rattle.graph_search.specs.Cuts.{IsCutVertex, IsLeastCutVertex, IsSeparatingPair, IsLeastPair};
ghost use Rattle.conn_parts.specs.GraphLists.{graph_lists as lists_of_graph};

use crate::graph_cuts::adjacency_lists::graph_lists;
use crate::{Parts, list_components};
use graph_search::list_cuts::{list_cut_vertex, list_separating_pair};
use graphs::Graph;
use map_lists::VertexId;
use std::alloc::{AllocError, Global};

/// Returns the components of `graph`, which has a vertex, numbered by least vertex. Fails only when out of memory.
pub fn graph_components(alloc: Global, graph: &Graph) -> Result<Parts, AllocError>
    requires { 0 < graph.now.n }
    ensures { IfOk result (ArePartsOf (lists_of_graph graph.now)) }
{
    let _n = graph.n();
    let lists = graph_lists(alloc, graph)?;
    list_components(alloc, &lists)
}

/// Returns the least cut vertex of `graph`, which has a vertex, or None if it has none. Fails only when out of memory.
pub fn graph_cut_vertex(alloc: Global, graph: &Graph) -> Result<Option<VertexId>, AllocError>
    requires { 0 < graph.now.n }
    ensures { IfOk result (λ found. MatchOption found ((v : ℕ) → ¬ IsCutVertex (lists_of_graph graph.now) v) (λ v. IsLeastCutVertex (lists_of_graph graph.now) v.0)) }
{
    let _n = graph.n();
    let lists = graph_lists(alloc, graph)?;
    match list_cut_vertex(alloc, &lists)? {
        Some(v) => Ok(Some(VertexId(v))),
        None => Ok(None),
    }
}

/// Returns the least separating pair of `graph`, which has a vertex, by its first vertex and then by its second. None
/// is returned exactly where there is none. It fails only when out of memory.
pub fn graph_separating_pair(
    alloc: Global,
    graph: &Graph,
) -> Result<Option<(VertexId, VertexId)>, AllocError>
    requires { 0 < graph.now.n }
    ensures { IfOk result (λ found. MatchOption found ((u v : ℕ) → ¬ IsSeparatingPair (lists_of_graph graph.now) u v) (λ p. IsLeastPair (lists_of_graph graph.now) p.0.0 p.1.0)) }
{
    let _n = graph.n();
    let lists = graph_lists(alloc, graph)?;
    match list_separating_pair(alloc, &lists)? {
        Some(p) => Ok(Some((VertexId(p.0), VertexId(p.1)))),
        None => Ok(None),
    }
}
