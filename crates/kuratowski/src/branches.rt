//! Whether the branch vertices of a Kuratowski witness are distinct vertices of the graph.
ghost use Rattle.std.specs.Prelude.{◌≡◌, ◌<◌, ◌≤◌, ◌↔◌, ◌⊎◌, ℕ, length, IsTrue, MatchOption};
ghost use Rattle.kuratowski.specs.Witnesses.{vertex_at as vertex_of};
ghost use Rattle.kuratowski.specs.Faults.{StandsBefore, IsBadBranch, Stands};
ghost use Rattle.kuratowski.specs.Verdicts.{NoBadBranch, IsLeast};

use crate::shape::vertex_at;
use map_lists::VertexList;

/// Returns the index of the first branch that is not below `n` or is equal to an earlier branch, or None.
pub fn bad_branch(n: u16, branch: &VertexList) -> Option<usize>
    ensures { MatchOption result (NoBadBranch n branch.now) (IsLeast (IsBadBranch n branch.now)) }
{
    for i in 0..branch.len() {
        if n <= vertex_at(branch, i) || stands_before(branch, i) {
            return Some(i);
        }
    }
    None
}

// Says whether branch `i` is equal to an earlier one.
fn stands_before(branch: &VertexList, i: usize) -> bool
    requires { i < length branch.now }
    ensures { IsTrue result ↔ StandsBefore branch.now i }
{
    let vertex = vertex_at(branch, i);
    for j in 0..i {
        if vertex_at(branch, j) == vertex {
            return true;
        }
    }
    false
}

/// Says whether `vertex` is in `list`.
pub fn stands(list: &VertexList, vertex: u16) -> bool
    ensures { IsTrue result ↔ Stands list.now vertex }
{
    for j in 0..list.len() {
        if vertex_at(list, j) == vertex {
            return true;
        }
    }
    false
}
