//! Adds one vertex to a tree of offsets, over an interval of the contour.
ghost use Rattle.std.specs.Prelude.{◌≡◌, ◌≢◌, ◌<◌, ◌≤◌, ◌+◌, ◌-◌, ◌*◌, ◌^◌, ℕ, suc, List, slice_index, length, pos, ◌+ℤ◌, option_map, Some};
ghost use Rattle.pg_plane.specs.Range.{IsWithin};
ghost use Rattle.fpp_shift.specs.Nodes.{node_at, right_of};
ghost use Rattle.fpp_shift.specs.OffsetTreesRows.{IsRow, far};
ghost use Rattle.fpp_shift.specs.Next.{CoversFrom, IsTop, IsNextStep};
ghost use Rattle.fpp_shift.specs.Grown.{links_of, IsGrown};
ghost use Rattle.fpp_shift.specs.Writes.{SetsNode};
ghost use Rattle.contour_runs.specs.Runs.{Step};

use crate::offset_trees::node_writes::{set_right, set_x};
use crate::offset_trees::{Node, Offsets};
use map_lists::VertexId;
use pg_io::Steps;
use std::sync::ledger::Ledger;

// Returns `width` plus `offset`.
fn wider(width: i32, offset: i32) -> i32
    requires { IsWithin (pos 1048576) (width +ℤ offset) }
    ensures { result ≡ width +ℤ offset }
{
    width + offset
}

// Returns the vertex to which the right link of vertex `at` in `tree`, which it has, leads. Adds one to `steps`.
fn to_right<L: Ledger>(tree: &Offsets<L>, at: u16, steps: &mut Steps<L>) -> u16
    requires at { at < length tree.now }
    requires link { (u : ℕ) × (right_of tree.now at ≡ Some u) }
    ensures link { right_of tree.now at ≡ Some result }
    ensures steps { steps.new ≡ steps.old + 1 }
{
    let node = tree.get(VertexId(at), steps);
    match node.right {
        Some(next) => next.0,
        None => unreachable!(),
    }
}

// Returns the offset of vertex `at` in `tree`, and adds one to `steps`.
fn offset_of<L: Ledger>(tree: &Offsets<L>, at: u16, steps: &mut Steps<L>) -> i32
    requires { at < length tree.now }
    ensures offset { result ≡ (node_at tree.now at).x }
    ensures steps { steps.new ≡ steps.old + 1 }
{
    let node = tree.get(VertexId(at), steps);
    node.x
}

// Follows right links of `tree` from `p` to `q`, to which they must lead, and adds at most two for each to `steps`.
// Returns how far `q` stands to the right of `p`, and the vertex before `q`.
pub(crate) fn walk<L: Ledger>(tree: &Offsets<L>, p: u16, q: u16, steps: &mut Steps<L>) -> (i32, u16)
    requires { (row : ℕ → ℕ) × (m : ℕ) × IsRow tree.now row m p q }
    ensures width { (row : ℕ → ℕ) (m : ℕ) → IsRow tree.now row m p q → result.0 ≡ far tree.now row m }
    ensures before { (row : ℕ → ℕ) (m : ℕ) → IsRow tree.now row (suc m) p q → result.1 ≡ row m }
    ensures steps { (row : ℕ → ℕ) (m : ℕ) → IsRow tree.now row m p q → steps.new ≤ steps.old + 2 * m }
    ensures never_falls { steps.old ≤ steps.new }
{
    let mut width: i32 = 0;
    let mut at = p;
    for passed in 0..tree.len() {
        let next = to_right(tree, at, steps);
        width = wider(width, offset_of(tree, next, steps));
        if next == q {
            return (width, at);
        }
        at = next;
    }
    unreachable!()
}

// Returns half of `number`, which is even.
fn half(number: i32) -> i32
    requires { (k : ℕ) × (number ≡ pos (2 * k)) × (k < 2 ^ 20) }
    ensures { (k : ℕ) → number ≡ pos (2 * k) → result ≡ pos k }
{
    number / 2
}

// Returns where a new vertex comes over p and q, which stood `apart` before, at heights `y_p` and `y_q`. These are its
// offset from p, its height, and the offset of q from it.
fn top(apart: i32, y_p: i32, y_q: i32) -> (i32, i32, i32)
    requires { (far : ℕ) × (p : ℕ) × (q : ℕ) × (dx : ℕ) × (dy : ℕ) × IsTop apart y_p y_q far p q dx dy }
    ensures { (far p q dx dy : ℕ) → IsTop apart y_p y_q far p q dx dy
        → (result.0 ≡ pos dx) × (result.1 ≡ pos dy) × (pos dx +ℤ result.2 ≡ pos (far + 2)) }
{
    let width = apart + 2;
    let x = half(width + y_q - y_p);
    let y = half(width + y_p + y_q);
    (x, y, width - x)
}

// Hangs the nodes strictly within an interval on the new vertex over them, which stands `x` to the right of the
// interval's first vertex. `row` is that first vertex and the last but one. In `tree` it rewrites the first node's
// offset and clears the last one's right link. Adds at most 6 to `steps`. Returns the first of the nodes, or None.
fn cover<L: Ledger>(
    tree: &mut Offsets<L>,
    row: (u16, u16),
    x: i32,
    steps: &mut Steps<L>,
) -> Option<VertexId>
    requires p { row.0 < length tree.old }
    requires before { row.1 < length tree.old }
    requires first { row.1 ≢ row.0 → (f : ℕ) × (right_of tree.old row.0 ≡ Some f) × (f < length tree.old) × IsWithin (pos 1048576) (node_at tree.old f).x }
    requires x { IsWithin (pos 1048576) x }
    ensures covers { CoversFrom tree.old tree.new row.0 row.1 x (option_map (λ u. u.0) result) }
    ensures count { length tree.new ≡ length tree.old }
    ensures steps { steps.new ≤ steps.old + 6 }
    ensures never_falls { steps.old ≤ steps.new }
{
    let (p, before) = row;
    if before == p {
        return None;
    }
    let first = to_right(tree, p, steps);
    let offset = offset_of(tree, first, steps);
    set_x(tree, first, from_top(offset, x), steps);
    set_right(tree, before, None, steps);
    Some(VertexId(first))
}

// Returns `offset`, from an interval's first vertex, plus one, as an offset from the new vertex, which is at `x`.
fn from_top(offset: i32, x: i32) -> i32
    requires offset { IsWithin (pos 1048576) offset }
    requires x { IsWithin (pos 1048576) x }
    ensures { x +ℤ result ≡ offset +ℤ pos 1 }
{
    offset + 1 - x
}

// Returns the height of vertex `at` in `tree`, and adds one to `steps`.
fn height_of<L: Ledger>(tree: &Offsets<L>, at: u16, steps: &mut Steps<L>) -> i32
    requires { at < length tree.now }
    ensures height { result ≡ (node_at tree.now at).y }
    ensures steps { steps.new ≡ steps.old + 1 }
{
    let node = tree.get(VertexId(at), steps);
    node.y
}

// Returns the node with the offset and height of `place`, and the left and right link of `links`.
fn node_with(place: (i32, i32), links: (Option<VertexId>, Option<VertexId>)) -> Node
    ensures { result ≡ record { x = place.0; y = place.1; left = links.0; right = links.1 } }
{
    Node {
        x: place.0,
        y: place.1,
        left: links.0,
        right: links.1,
    }
}

// Sets the node of vertex `v` in `tree` to `node`, and adds one to `steps`.
fn set_node<L: Ledger>(tree: &mut Offsets<L>, v: u16, node: Node, steps: &mut Steps<L>)
    requires { v < length tree.old }
    ensures set { SetsNode tree.old tree.new v node }
    ensures steps { steps.new ≡ steps.old + 1 }
{
    tree.put(VertexId(v), node, steps);
}

/// Adds vertex `v` to `tree`, over the interval of the contour between the vertices `ends`. The nodes are the tree of a
/// construction sequence before that step, and at most five of them change. Adds to `steps` at most 14, and two for
/// each vertex of the interval after its first. It takes no memory.
pub fn put_over<L: Ledger>(
    tree: &mut Offsets<L>,
    v: VertexId,
    ends: (VertexId, VertexId),
    steps: &mut Steps<L>,
)
    requires next { (at : List ℕ) × (run : ℕ → Step) × (n : ℕ) × IsNextStep at run n tree.old v.0 ends.0.0 ends.1.0 }
    ensures grown { (at : List ℕ) (run : ℕ → Step) (n : ℕ) → IsNextStep at run n tree.old v.0 ends.0.0 ends.1.0
        → IsGrown (slice_index at) run (suc n) (links_of tree.new at) }
    ensures count { length tree.new ≡ length tree.old }
    ensures steps { (at : List ℕ) (run : ℕ → Step) (n : ℕ) → IsNextStep at run n tree.old v.0 ends.0.0 ends.1.0
        → steps.new ≤ steps.old + 14 + 2 * ((run n).last - (run n).first) }
    ensures never_falls { steps.old ≤ steps.new }
{
    let (p, q) = ends;
    let (apart, before) = walk(tree, p.0, q.0, steps);
    let y_p = height_of(tree, p.0, steps);
    let y_q = height_of(tree, q.0, steps);
    let (x, y, rest) = top(apart, y_p, y_q);
    let first = cover(tree, (p.0, before), x, steps);
    set_right(tree, p.0, Some(v), steps);
    set_x(tree, q.0, rest, steps);
    set_node(tree, v.0, node_with((x, y), (first, Some(q))), steps);
}

/// Sets the nodes of `s` and `t` in `tree` to those before the first step of a construction sequence: zeros, and a
/// right link from `s` to `t`. Adds two to `steps`. It takes no memory.
pub fn begin_tree<L: Ledger>(tree: &mut Offsets<L>, s: VertexId, t: VertexId, steps: &mut Steps<L>)
    requires s { s.0 < length tree.old }
    requires t { t.0 < length tree.old }
    requires apart { s.0 ≢ t.0 }
    ensures grown { (at : List ℕ) (run : ℕ → Step) → slice_index at 0 ≡ s.0 → slice_index at 1 ≡ t.0
        → IsGrown (slice_index at) run 0 (links_of tree.new at) }
    ensures count { length tree.new ≡ length tree.old }
    ensures steps { steps.new ≡ steps.old + 2 }
{
    set_node(tree, s.0, node_with((0, 0), (None, Some(t))), steps);
    set_node(tree, t.0, node_with((0, 0), (None, None)), steps);
}
