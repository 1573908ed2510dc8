//! Whether each inner vertex of a witness's paths stands in one path only, once, and is no branch.
ghost use Rattle.std.specs.Prelude.{◌≡◌, ◌≢◌, ◌+◌, ◌-◌, ◌<◌, ◌≤◌, ◌↔◌, ◌⊎◌, ℕ, suc, length, Option, IsTrue, MatchOption};
ghost use Rattle.kuratowski.specs.Witnesses.{vertex_at as vertex_of, path_at, IsInnerPlace};
ghost use Rattle.kuratowski.specs.Faults.{Stands, StandsTwice, IsInner, IsShared};
ghost use Rattle.kuratowski.specs.Verdicts.{IsLeast, IsLeastPair, IsLeastTriple};
ghost use Rattle.kuratowski.specs.Inner.{IsLeastInner, IsBelow};

use crate::branches::stands;
use map_lists::{PathList, VertexId, VertexList};

/// An inner vertex that two paths share, or that is a branch or stands twice in one path.
#[derive(Clone, Copy, PartialEq, Eq)]
pub struct SharedVertex {
    /// The path in which it is inner.
    pub first: usize,
    /// The other path, or this path again.
    pub second: usize,
    /// The vertex.
    pub vertex: u16,
}

/// Returns the first of `paths` (of 2 or more vertices) with a wrong inner vertex: a branch, repeated, or shared. There
/// `second` is that path or the first that shares one, and `vertex` the least. Returns None if no path has one.
pub fn shared(branch: &VertexList, paths: &PathList) -> Option<SharedVertex>
    requires { (p : ℕ) → p < length paths.now → 2 ≤ length (path_at paths.now p) }
    ensures { MatchOption result ((p q v : ℕ) → ¬ IsShared branch.now paths.now p q v) (λ s. IsLeastTriple (IsShared branch.now paths.now) s.first s.second s.vertex) }
{
    for first in 0..paths.len() {
        match shared_by(branch, paths, first) {
            Some((second, vertex)) => {
                return Some(SharedVertex {
                    first,
                    second,
                    vertex,
                });
            }
            None => {}
        }
    }
    None
}

// Returns the first fault of path number `p`, or None: a path, and the least inner vertex of `p` at fault with it. The
// path is `p` itself if an inner vertex is a branch or stands twice, else the first later one that shares one.
fn shared_by(branch: &VertexList, paths: &PathList, p: usize) -> Option<(usize, u16)>
    requires path { p < length paths.now }
    requires long { (p : ℕ) → p < length paths.now → 2 ≤ length (path_at paths.now p) }
    ensures { MatchOption result ((q v : ℕ) → ¬ IsShared branch.now paths.now p q v) (λ r. IsLeastPair (IsShared branch.now paths.now p) r.0 r.1) }
{
    let path = paths.list(p);
    if let Some(vertex) = wrong_inner(branch, path) {
        return Some((p, vertex));
    }
    if path.len() == 2 {
        return None;
    }
    let count = paths.len();
    for q in p + 1..count {
        if let Some(vertex) = common_inner(path, paths.list(q)) {
            return Some((q, vertex));
        }
    }
    None
}

// Returns the least inner vertex of `path`, of 2 or more vertices, that is a branch or stands twice in it, or None.
fn wrong_inner(branch: &VertexList, path: &[VertexId]) -> Option<u16>
    requires { 2 ≤ length path.now }
    ensures { IsLeastInner path.now (λ v. Stands branch.now v ⊎ StandsTwice path.now v) (length path.now - 1) result }
{
    let mut least = None;
    for i in 1..path.len() - 1 {
        if is_below(path[i].0, least) && is_wrong(branch, path, i) {
            least = Some(path[i].0);
        }
    }
    least
}

// Returns the least vertex that is inner in both `path` and `other`, each of two or more vertices, or None.
fn common_inner(path: &[VertexId], other: &[VertexId]) -> Option<u16>
    requires path { 2 ≤ length path.now }
    requires other { 2 ≤ length other.now }
    ensures { IsLeastInner path.now (IsInner other.now) (length path.now - 1) result }
{
    let mut least = None;
    for i in 1..path.len() - 1 {
        if is_below(path[i].0, least) && is_inner(other, path[i].0) {
            least = Some(path[i].0);
        }
    }
    least
}

// Says whether the vertex at index `i` of `path` is a branch or stands at another index too.
fn is_wrong(branch: &VertexList, path: &[VertexId], i: usize) -> bool
    requires { i < length path.now }
    ensures { IsTrue result ↔ (Stands branch.now (vertex_of path.now i) ⊎ StandsTwice path.now (vertex_of path.now i)) }
{
    if stands(branch, path[i].0) {
        return true;
    }
    for j in 0..path.len() {
        if j != i && path[j].0 == path[i].0 {
            return true;
        }
    }
    false
}

// Says whether `vertex` is less than the least one so far, or there is none yet. So a path is gone through at most
// once for each number that a vertex can have.
fn is_below(vertex: u16, least: Option<u16>) -> bool
    ensures { IsTrue result ↔ IsBelow vertex least }
{
    match least {
        Some(other) => vertex < other,
        None => true,
    }
}

// Says whether `vertex` is in `path`, which has at least two vertices, between the first and the last.
fn is_inner(path: &[VertexId], vertex: u16) -> bool
    requires { 2 ≤ length path.now }
    ensures { IsTrue result ↔ IsInner path.now vertex }
{
    for i in 1..path.len() - 1 {
        if path[i].0 == vertex {
            return true;
        }
    }
    false
}
