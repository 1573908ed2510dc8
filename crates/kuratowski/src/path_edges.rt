//! Whether the paths of a witness go along edges of the graph.
ghost use Rattle.std.specs.Prelude.{◌≡◌, ◌+◌, ◌^◌, ◌<◌, ◌≤◌, ◌↔◌, ℕ, suc, true, false, length, IsTrue, IfSome, MatchOption};
ghost use Rattle.graphs.specs.Graphs.{has_edge};
ghost use Rattle.kuratowski.specs.Witnesses.{vertex_at as vertex_of};
ghost use Rattle.kuratowski.specs.Faults.{LacksEdge};
ghost use Rattle.kuratowski.specs.Verdicts.{LacksNone, IsLeast, IsLeastPair};

use graphs::Graph;
use map_lists::{PathList, VertexId};

/// Returns the first path, and the first index in it, at which no edge of `graph` leads to the next vertex, or None.
pub fn missing_edge(graph: &Graph, paths: &PathList) -> Option<(usize, usize)>
    ensures room { IfSome result (λ r. r.1 + 1 < 2 ^ 64) }
    ensures first { MatchOption result (LacksNone graph.now paths.now) (λ r. IsLeastPair (LacksEdge graph.now paths.now) r.0 r.1) }
{
    for p in 0..paths.len() {
        match missing_step(graph, paths.list(p)) {
            Some(i) => return Some((p, i)),
            None => {}
        }
    }
    None
}

// Returns the first index of `path` at which no edge of `graph` leads to the next vertex, or None.
fn missing_step(graph: &Graph, path: &[VertexId]) -> Option<usize>
    ensures room { IfSome result (λ i. i + 1 < 2 ^ 64) }
    ensures first { MatchOption result ((i : ℕ) → suc i < length path.now → has_edge graph.now (vertex_of path.now i) (vertex_of path.now (suc i)) ≡ true) (IsLeast (λ i. (suc i < length path.now) × (has_edge graph.now (vertex_of path.now i) (vertex_of path.now (suc i)) ≡ false))) }
{
    for i in 1..path.len() {
        if !graph.has(path[i - 1], path[i]) {
            return Some(i - 1);
        }
    }
    None
}
