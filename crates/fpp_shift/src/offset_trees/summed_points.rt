//! Adds up a tree of offsets to the points of its vertices.
ghost use Rattle.std.specs.Prelude.{◌≡◌, ◌<◌, ◌≤◌, ◌+◌, ◌*◌, ℕ, length, take, option_map, slice_index, slice_set, pos, ◌+ℤ◌, IfOk};
ghost use Rattle.pg_plane.specs.Range.{IsWithin};
ghost use Rattle.plane_drawings.specs.Drawing.{place};
ghost use Rattle.fpp_shift.specs.Ways.{IsTree, ArePointsOf};
ghost use Rattle.fpp_shift.specs.Sums.{AreMet, IsNext, own_point as own, point_beside as beside};

use crate::offset_trees::{Node, Offsets};
use map_lists::VertexId;
use pg_io::Steps;
use pg_plane::{Point, Points};
use std::alloc::{AllocError, Global};
use std::mem;
use std::sync::ledger::Ledger;

// Returns the point of a vertex with this `node` to which one at `from` leads: offset from it, at the node's height.
fn point_beside(from: Point, node: Node) -> Point
    requires { IsWithin (pos 1048576) (from.x +ℤ node.x) }
    ensures { result ≡ beside from node }
{
    Point {
        x: from.x + node.x,
        y: node.y,
    }
}

// Writes vertex `v` at index `i` of `met`, the list of vertices met.
fn meet(met: &mut [u16], i: usize, v: u16)
    requires { i < length met.old }
    ensures { met.new ≡ slice_set met.old i v }
{
    met[i] = v;
}

// Returns the entry of vertex `v` in `points`.
fn point_of(points: &[Point], v: u16) -> Point
    requires { v < length points.now }
    ensures { result ≡ place points.now v }
{
    points[v as usize]
}

// Sets entry `v` of `points` to `point`.
fn put_point(points: &mut [Point], v: u16, point: Point)
    requires { v < length points.old }
    ensures { points.new ≡ slice_set points.old v point }
{
    points[v as usize] = point;
}

// Returns the point of the root, which has this `node`.
fn own_point(node: Node) -> Point
    ensures { result ≡ own node }
{
    Point {
        x: node.x,
        y: node.y,
    }
}

// Follows `link`, one of the links of `v` in `tree`; the first `filled` entries of `met` are the vertices met so far.
// If it leads to a vertex, appends that to them, writes its point to `points` and adds one to `steps`. Returns the new
// `filled`.
fn follow<L: Ledger>(
    tree: &Offsets<L>,
    met: &mut [u16],
    points: &mut [Point],
    filled: usize,
    v: u16,
    link: Option<VertexId>,
    steps: &mut Steps<L>,
) -> usize
    requires met { length met.old ≡ length tree.now }
    requires points { length points.old ≡ length tree.now }
    requires filled { filled ≤ length tree.now }
    requires next { (root : ℕ) × (h : ℕ) × IsTree tree.now root × AreMet tree.now root (take filled met.old) points.old h
        × IsNext tree.now (take filled met.old) h v (option_map (λ u. u.0) link) }
    ensures met { (root h : ℕ) → IsTree tree.now root → AreMet tree.now root (take filled met.old) points.old h
        → IsNext tree.now (take filled met.old) h v (option_map (λ u. u.0) link) → AreMet tree.now root (take result met.new) points.new (h + 1) }
    ensures kept { (i : ℕ) → i < filled → slice_index met.new i ≡ slice_index met.old i }
    ensures grows { filled ≤ result }
    ensures within { result ≤ length tree.now }
    ensures met_count { length met.new ≡ length met.old }
    ensures points_count { length points.new ≡ length points.old }
    ensures steps { steps.new ≤ steps.old + 1 }
    ensures never_falls { steps.old ≤ steps.new }
{
    match link {
        Some(u) => {
            let node = tree.get(u, steps);
            put_point(points, u.0, point_beside(point_of(points, v), node));
            meet(met, filled, u.0);
            filled + 1
        }
        None => filled,
    }
}

// Writes to `points` the point of each vertex of `tree`, which has this `root`. Fills `met` with the vertices in the
// order in which they are met: the root, and then for each of them the vertices to which its links lead. Both tables
// may hold anything before. Adds at most 8 for each vertex to `steps`.
fn find_points<L: Ledger>(
    tree: &Offsets<L>,
    root: VertexId,
    met: &mut [u16],
    points: &mut [Point],
    steps: &mut Steps<L>,
)
    requires met { length met.old ≡ length tree.now }
    requires points { length points.old ≡ length tree.now }
    requires tree { IsTree tree.now root.0 }
    ensures points { ArePointsOf tree.now root.0 points.new }
    ensures uses { (steps.old ≤ steps.new) × (steps.new ≤ steps.old + 8 * length tree.now) }
{
    meet(met, 0, root.0);
    let first = tree.get(root, steps);
    put_point(points, root.0, own_point(first));
    let mut filled = 1;
    for i in 0..tree.len() {
        let place = i as usize;
        if filled <= place {
            continue;
        }
        let v = met[place];
        let node = tree.get(VertexId(v), steps);
        let left = follow(tree, met, points, filled, v, node.left, steps);
        filled = follow(tree, met, points, left, v, node.right, steps);
    }
}

// The tables by which points are found, kept from one tree to the next.
#[derive(Drop)]
pub(crate) struct SumMemory {
    alloc: Global,
    met: Vec<u16>,
    spent: Points,
}

impl SumMemory {
    // Makes tables that have no memory yet.
    pub(crate) fn new(alloc: Global) -> SumMemory {
        SumMemory {
            alloc,
            met: Vec::new(alloc),
            spent: Points::new(alloc),
        }
    }

    // Returns the points to which `tree` adds up from `root`, in the memory of `self.spent`, which is left empty.
    // `self.met` is overwritten. Adds at most 8 for each node to `steps`. It fails only when out of memory.
    pub(crate) fn sum_offsets<L: Ledger>(
        &mut self,
        tree: &Offsets<L>,
        root: VertexId,
        steps: &mut Steps<L>,
    ) -> Result<Points, AllocError>
        requires { IsTree tree.now root.0 }
        ensures points { IfOk result (ArePointsOf tree.now root.0) }
        ensures uses { (steps.old ≤ steps.new) × (steps.new ≤ steps.old + 8 * length tree.now) }
    {
        self.met.resize(tree.len() as usize, 0)?;
        let spent = mem::replace(&mut self.spent, Points::new(self.alloc));
        let mut points = spent.into_vec();
        points.resize(tree.len() as usize, Point { x: 0, y: 0 })?;
        find_points(tree, root, &mut self.met, &mut points, steps);
        Ok(Points::from_vec(points))
    }

    // Moves `points`, no longer needed, to `self.spent`, so that the next call uses their memory.
    pub(crate) fn keep(&mut self, points: Points) {
        self.spent = points;
    }
}

/// Returns the points to which `tree` adds up. The y of a vertex is that of its node. Its x is the sum of the nodes' x
/// on the path of links from `root` to it, both included.
///
/// The links lead from the root to each vertex, and to each other vertex by just one link; each such sum is from -2^20
/// to 2^20. Adds at most 8 for each node to `steps`.
///
/// It fails only when out of memory.
pub fn sum_offsets<L: Ledger>(
    alloc: Global,
    tree: &Offsets<L>,
    root: VertexId,
    steps: &mut Steps<L>,
) -> Result<Points, AllocError>
    requires { IsTree tree.now root.0 }
    ensures points { IfOk result (ArePointsOf tree.now root.0) }
    ensures steps { steps.new ≤ steps.old + 8 * length tree.now }
    ensures never_falls { steps.old ≤ steps.new }
{
    let mut memory = SumMemory::new(alloc);
    let points = memory.sum_offsets(tree, root, steps)?;
    Ok(points)
}
