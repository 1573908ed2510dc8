//! Whether a witness has as many branches and paths as its kind, K5 or K3,3, and each path joins its two branches.
ghost use Rattle.std.specs.Prelude.{◌≡◌, ◌<◌, ◌≤◌, ◌-◌, ◌↔◌, ℕ, length, IsTrue, slice_index_or};
ghost use Rattle.kuratowski.specs.Witnesses.{branch_count as branches_of, pairs_of, pair_at as pair_of, vertex_at as vertex_of, path_at, Joins, IsShape};

use crate::Kind;
use map_lists::{PathList, VertexId, VertexList};

/// Says whether `branch` and `paths` have as many branches and paths as `kind`, and each path joins its two branches.
pub fn has_shape(kind: Kind, branch: &VertexList, paths: &PathList) -> bool
    ensures { IsTrue result ↔ IsShape kind branch.now paths.now }
{
    if branch.len() != kind.branch_count() {
        return false;
    }
    if paths.len() != kind.path_count() {
        return false;
    }
    for p in 0..paths.len() {
        if !joins(kind, branch, paths.list(p), p) {
            return false;
        }
    }
    true
}

// Says whether `path` leads from the first to the second of the branches that path number `p`, from 0, of `kind` joins.
fn joins(kind: Kind, branch: &VertexList, path: &[VertexId], p: usize) -> bool
    requires branches { length branch.now ≡ branches_of kind }
    requires path { p < length (pairs_of kind) }
    ensures { IsTrue result ↔ Joins branch.now path.now (pair_of kind p) }
{
    let (a, b) = kind.pair_at(p);
    path.len() >= 2
        && path[0].0 == vertex_at(branch, a)
        && path[path.len() - 1].0 == vertex_at(branch, b)
}

/// Returns the number of the vertex at index `i` of `list`.
pub fn vertex_at(list: &VertexList, i: usize) -> u16
    requires { i < length list.now }
    ensures { result ≡ vertex_of list.now i }
{
    list.get(i).0
}
