//! The public calls for the least cut vertex and the least separating pair of a half-edge map.
ghost use Rattle.std.specs.Prelude.{ℕ, MatchOption, IfOk};
ghost use Rattle.graph_search.specs.Cuts.{IsCutVertex, IsLeastCutVertex, IsSeparatingPair, IsLeastPair};

use graph_search::list_cuts::{list_cut_vertex, list_separating_pair};
use half_edges::HalfMap;
use map_lists::VertexId;
use std::alloc::{AllocError, Global};

/// Returns a map's least cut vertex, or None exactly if there is none, in linear time. Fails only when out of memory.
pub fn cut_vertex(alloc: Global, map: &HalfMap) -> Result<Option<VertexId>, AllocError>
    ensures { IfOk result (λ found. MatchOption found ((v : ℕ) → ¬ IsCutVertex map.now.lists v) (λ v. IsLeastCutVertex map.now.lists v.0)) }
{
    let lists = map.rotations(alloc)?;
    match list_cut_vertex(alloc, &lists)? {
        Some(v) => Ok(Some(VertexId(v))),
        None => Ok(None),
    }
}

/// Returns the least separating pair of a map, by its first vertex and then by its second, or None exactly where
/// there is none. It fails only when out of memory.
pub fn separating_pair(
    alloc: Global,
    map: &HalfMap,
) -> Result<Option<(VertexId, VertexId)>, AllocError>
    ensures { IfOk result (λ found. MatchOption found ((u v : ℕ) → ¬ IsSeparatingPair map.now.lists u v) (λ p. IsLeastPair map.now.lists p.0.0 p.1.0)) }
{
    let lists = map.rotations(alloc)?;
    match list_separating_pair(alloc, &lists)? {
        Some(p) => Ok(Some((VertexId(p.0), VertexId(p.1)))),
        None => Ok(None),
    }
}
