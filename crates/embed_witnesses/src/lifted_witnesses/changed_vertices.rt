//! Lookups in a changed witness: its branch vertices, and each path's length and vertices, with K3,3 indexed by K5.
ghost use Rattle.std.specs.Prelude.{◌≡◌, ◌<◌, ◌+◌, ◌-◌, ◌==◌, nat_lt, if◌then◌else◌};
ghost use Rattle.kuratowski.specs.Witnesses.{branch_count as branches_of, vertex_at as vertex_of};
ghost use Rattle.embed_contraction.specs.Traces.{path_count as paths_of};
ghost use Rattle.embed_witnesses.specs.Merged.{exchanged_number as number_of_other};
ghost use Rattle.embed_witnesses.specs.Changes.{step_count as steps_of, place_in as vertex_of_path, moved as moved_number, put_in as put_number, mended_count as mended_steps, longer as longer_vertex, mended_place as mended_vertex, named_branch as branch_named, first_name as name_of_first, path_between as path_of_two, link_between as link_of_two, link_of as link_number, linked_place as linked_vertex, ended as ended_vertex, split_count as split_steps, split_place as split_vertex, split_branch as split_branch_vertex, kind_in, branch_in, count_in, vertex_in};

use crate::lifted_witnesses::change_kinds::{Change, Mending, Splitting};
use kuratowski::Kind;
use map_lists::{PathList, VertexId, VertexList};

// Returns the vertex at index `i` of `list`, or 0 past its end.
fn vertex_at(list: &[VertexId], i: usize) -> u16
    ensures { result ≡ vertex_of list.now i }
{
    if i < list.len() { list[i].0 } else { 0 }
}

// Returns branch vertex `i` of `list`, or 0 past the last.
fn branch_at(list: &VertexList, i: usize) -> u16
    ensures { result ≡ vertex_of list.now i }
{
    if i < list.len() { list.get(i).0 } else { 0 }
}

// Returns the vertex at index `i` of path `p`, or 0 where there is none.
fn place_in(paths: &PathList, p: usize, i: usize) -> u16
    ensures { result ≡ vertex_of_path paths.now p i }
{
    if p < paths.len() {
        vertex_at(paths.list(p), i)
    } else {
        0
    }
}

/// Returns the number of steps of path `p`; past the last path there are none.
pub(crate) fn step_count(paths: &PathList, p: usize) -> usize
    ensures value { result ≡ steps_of paths.now p }
    ensures few { result < 18446744073709551615 }
{
    if p < paths.len() {
        paths.list(p).len().saturating_sub(1)
    } else {
        0
    }
}

// Returns `v` with `a` and `b` exchanged.
fn exchanged_number(a: u16, b: u16, v: u16) -> u16
    ensures { result ≡ number_of_other a b v }
{
    if v == a {
        b
    } else if v == b {
        a
    } else {
        v
    }
}

// Returns the vertex for `v` in the witness mended by `m`: `v`, or the other end where the ends are exchanged.
fn moved(m: Mending, v: u16) -> u16
    ensures { result ≡ moved_number m v }
{
    if m.exchange {
        exchanged_number(m.a, m.b, v)
    } else {
        v
    }
}

// Returns the end of the edge that a mending puts into a path.
fn put_in(m: Mending) -> u16
    ensures { result ≡ put_number m }
{
    if m.exchange { m.a } else { m.b }
}

// Returns the number of steps of path `p` in the witness mended by `m`, whose old paths are `paths`.
fn mended_count(m: Mending, paths: &PathList, p: usize) -> usize
    ensures { result ≡ mended_steps m paths.now p }
{
    if p == m.path {
        step_count(paths, p) + 1
    } else {
        step_count(paths, p)
    }
}

// Returns the vertex at index `i` of path `m.path`, into which `m` puts an end of the edge; `paths` are the old ones.
fn longer(m: Mending, paths: &PathList, i: usize) -> u16
    ensures { result ≡ longer_vertex m paths.now i }
{
    if m.place < i {
        if i == m.place + 1 {
            put_in(m)
        } else {
            moved(m, place_in(paths, m.path, i - 1))
        }
    } else {
        moved(m, place_in(paths, m.path, i))
    }
}

// Returns the vertex at index `i` of path `p` in the witness mended by `m`, whose old paths are `paths`.
fn mended_place(m: Mending, paths: &PathList, p: usize, i: usize) -> u16
    ensures { result ≡ mended_vertex m paths.now p i }
{
    if p == m.path {
        longer(m, paths, i)
    } else {
        moved(m, place_in(paths, p, i))
    }
}

// Returns digit `k` of `order` in base 5: the branch of K5 that is listed at index `k`.
fn named_branch(order: u32, k: usize) -> u32
    ensures value { result ≡ branch_named order k }
    ensures few { result < 5 }
{
    if k == 0 {
        order % 5
    } else if k == 1 {
        order / 5 % 5
    } else if k == 2 {
        order / 25 % 5
    } else if k == 3 {
        order / 125 % 5
    } else {
        order / 625 % 5
    }
}

// Returns the digit (as in `named_branch`) that names the K5 branch at which path `p` of K3,3 begins: 0, 3 or 4.
fn first_name(p: usize) -> usize
    ensures { result ≡ name_of_first p }
{
    let row = p / 3;
    if row == 0 { 0 } else { row + 2 }
}

// Returns the number of the path of K5 between branches `a` and `b`, where `a` is the lesser.
fn path_between(a: u32, b: u32) -> u32
    requires { b < 5 }
    ensures { result ≡ path_of_two a b }
{
    if a == 0 {
        if b == 0 { 0 } else { b - 1 }
    } else if a == 1 {
        b + 2
    } else if a == 2 {
        b + 4
    } else {
        9
    }
}

// Returns the number of the path of K5 between branches `a` and `b`, in any order.
fn link_between(a: u32, b: u32) -> u32
    requires first { a < 5 }
    requires second { b < 5 }
    ensures { result ≡ link_of_two a b }
{
    if a < b {
        path_between(a, b)
    } else {
        path_between(b, a)
    }
}

// Returns the number of the K5 path that becomes path `p`, not 0, of K3,3; `order` lists the K5 branches as digits.
fn link_of(order: u32, p: usize) -> usize
    ensures { result ≡ link_number order p }
{
    let first = named_branch(order, first_name(p));
    let second = named_branch(order, p % 3);
    link_between(first, second) as usize
}

// Returns the vertex at index `i` of the K5 path that gives path `p` of K3,3, reversed if its first branch is greater.
fn linked_place(order: u32, paths: &PathList, p: usize, i: usize) -> u16
    ensures { result ≡ linked_vertex order paths.now p i }
{
    let link = link_of(order, p);
    if named_branch(order, first_name(p)) < named_branch(order, p % 3) {
        place_in(paths, link, i)
    } else {
        place_in(paths, link, step_count(paths, link).saturating_sub(i))
    }
}

// Returns the vertex that stands for `v` on path `p` of the split witness: `b` for `a` on the paths that end at `b`.
fn ended(t: Splitting, p: usize, v: u16) -> u16
    ensures { result ≡ ended_vertex t p v }
{
    if p % 3 == 0 && v == t.a { t.b } else { v }
}

// Returns the number of steps of path `p` in the witness split by `t`, whose old paths are `paths`.
fn split_count(t: Splitting, paths: &PathList, p: usize) -> usize
    ensures value { result ≡ split_steps t paths.now p }
    ensures few { result < 18446744073709551615 }
{
    if p == 0 {
        1
    } else {
        step_count(paths, link_of(t.order, p))
    }
}

// Returns the vertex at index `i` of path `p` in the witness split by `t`, whose old paths are `paths`.
fn split_place(t: Splitting, paths: &PathList, p: usize, i: usize) -> u16
    ensures { result ≡ split_vertex t paths.now p i }
{
    if p == 0 {
        if i == 0 { t.a } else { t.b }
    } else {
        ended(t, p, linked_place(t.order, paths, p, i))
    }
}

// Returns the digit (as in `named_branch`) that names the K5 branch which becomes branch `j` of K3,3.
fn name_of_branch(j: usize) -> usize
    ensures { result ≡ (if j == 0 then 0 else if nat_lt j 3 then j + 2 else j - 3) }
{
    if j == 0 {
        0
    } else if j < 3 {
        j + 2
    } else {
        j - 3
    }
}

// Returns branch vertex `j` of the witness split by `t`, whose old branch vertices are `branch`.
fn split_branch(t: Splitting, branch: &VertexList, j: usize) -> u16
    ensures { result ≡ split_branch_vertex t branch.now j }
{
    if j == 3 {
        t.b
    } else {
        branch_at(branch, named_branch(t.order, name_of_branch(j)) as usize)
    }
}

/// Returns the kind of the changed witness, where the old one has kind `kind`.
pub(crate) fn kind_of(change: Change, kind: Kind) -> Kind
    ensures { result ≡ kind_in change kind }
{
    match change {
        Change::Mended(_) => kind,
        Change::Split(_) => Kind::K33,
    }
}

/// Returns branch vertex `j` of the changed witness; `branch` has those of the old one.
pub(crate) fn branch_of(change: Change, branch: &VertexList, j: usize) -> u16
    ensures { result ≡ branch_in change branch.now j }
{
    match change {
        Change::Mended(m) => moved(m, branch_at(branch, j)),
        Change::Split(t) => split_branch(t, branch, j),
    }
}

/// Returns the number of steps of path `p` of the changed witness; `paths` are those of the old one.
pub(crate) fn count_of(change: Change, paths: &PathList, p: usize) -> usize
    ensures { result ≡ count_in change paths.now p }
{
    match change {
        Change::Mended(m) => mended_count(m, paths, p),
        Change::Split(t) => split_count(t, paths, p),
    }
}

/// Returns the vertex at index `i` of path `p` of the changed witness; `paths` are those of the old one.
pub(crate) fn vertex_of_change(change: Change, paths: &PathList, p: usize, i: usize) -> u16
    ensures { result ≡ vertex_in change paths.now p i }
{
    match change {
        Change::Mended(m) => mended_place(m, paths, p, i),
        Change::Split(t) => split_place(t, paths, p, i),
    }
}
