//! Promised contracts of the shift method.
ghost use Rattle.std.specs.Prelude.{◌≡◌, ◌<◌, ◌-◌, ◌*◌, IfOk, ◌≤◌, ◌+◌, length, slice_index, replicate, slice_set, Some, None, IfErr, OnOk};
ghost use Rattle.canon_order.specs.Orders.{IsCanonicalOrder, vertices_of};
ghost use Rattle.fpp_shift.specs.Nodes.{empty_node, node_at};
ghost use Rattle.fpp_shift.specs.ShiftDrawings.{IsShiftOf};
ghost use Rattle.fpp_shift.specs.Trees.{IsTreeOf};
ghost use Rattle.fpp_shift.specs.Ways.{IsTree, ArePointsOf};
ghost use Rattle.fpp_shift.specs.declared.offset_trees.tree_nodes.Node.{Node};
ghost use Rattle.grid_figures.specs.ShiftFiguresFigures.{IsShiftFigure};
ghost use Rattle.map_theory.specs.Maps.{Dart, vertex_count};
ghost use Rattle.plane_laws.specs.Triangulations.{IsTriangulation};
ghost use Rattle.refusals.specs.Conditions.{first_refusal, IfRefused};

use canon_order::Order;
use fpp_shift::{Node, Offsets, ShiftFault, Shifter};
use grid_figures::Drawer;
use half_edges::HalfMap;
use map_lists::{Rotations, VertexId};
use pg_io::Steps;
use pg_plane::{GridFigure, Points};
use refusals::Unserved;
use std::alloc::{AllocError, Global};
use std::sync::ledger::Ledger;

/// Draws `tri` by the shift method over `order`.
pub fn shift_draw(alloc: Global, tri: &HalfMap, order: &Order) -> Result<GridFigure, ShiftFault>
    requires triangulation { IsTriangulation tri.now.lists }
    requires order { (base : Dart) × IsCanonicalOrder tri.now.lists base (vertices_of order.now) }
    ensures { IfOk result (IsShiftOf tri.now.lists (vertices_of order.now)) }
{
    fpp_shift::shift_draw(alloc, tri, order)
}

/// Fills `tree` with the offsets of `order`, in at most 24 steps a vertex and with no memory.
pub fn offset_tree<L: Ledger>(
    tri: &HalfMap,
    order: &Order,
    tree: &mut Offsets<L>,
    steps: &mut Steps<L>,
)
    requires triangulation { IsTriangulation tri.now.lists }
    requires order { (base : Dart) × IsCanonicalOrder tri.now.lists base (vertices_of order.now) }
    requires nodes { length tree.old ≡ vertex_count tri.now.lists }
    ensures tree { IsTreeOf tri.now.lists (vertices_of order.now) tree.new }
    ensures links { IsTree tree.new (slice_index (vertices_of order.now) 0) }
    ensures count { length tree.new ≡ length tree.old }
    ensures steps { steps.new ≤ steps.old + 24 * vertex_count tri.now.lists }
    ensures never_falls { steps.old ≤ steps.new }
{
    fpp_shift::offset_tree(tri, order, tree, steps);
}

/// Adds the offsets of `tree` up from `root`, in at most 8 steps a vertex.
pub fn sum_offsets<L: Ledger>(
    alloc: Global,
    tree: &Offsets<L>,
    root: VertexId,
    steps: &mut Steps<L>,
) -> Result<Points, AllocError>
    requires { IsTree tree.now root.0 }
    ensures points { IfOk result (ArePointsOf tree.now root.0) }
    ensures steps { steps.new ≤ steps.old + 8 * length tree.now }
    ensures never_falls { steps.old ≤ steps.new }
{
    fpp_shift::sum_offsets(alloc, tree, root, steps)
}

/// Makes a tree of `n` empty nodes.
pub fn empty_tree<L: Ledger>(alloc: Global, n: u16) -> Result<Offsets<L>, AllocError>
    requires { 1 ≤ n }
    ensures { IfOk result (λ tree. tree ≡ replicate n empty_node) }
{
    Offsets::new(alloc, n)
}

/// Counts the nodes of `tree`.
pub fn node_count<L: Ledger>(tree: &Offsets<L>) -> u16
    ensures { result ≡ length tree.now }
{
    tree.len()
}

/// Returns the node of `v`, in one step.
pub fn node<L: Ledger>(tree: &Offsets<L>, v: VertexId, steps: &mut Steps<L>) -> Node
    requires { v.0 < length tree.now }
    ensures node { result ≡ node_at tree.now v.0 }
    ensures step { steps.new ≡ steps.old + 1 }
{
    tree.get(v, steps)
}

/// Sets the node of `v`, in one step.
pub fn put_node<L: Ledger>(tree: &mut Offsets<L>, v: VertexId, node: Node, steps: &mut Steps<L>)
    requires { v.0 < length tree.old }
    ensures set { tree.new ≡ slice_set tree.old v.0 node }
    ensures step { steps.new ≡ steps.old + 1 }
{
    tree.put(v, node, steps);
}

/// Draws the map of `lists` by the shift method, or names the first condition that it breaks.
pub fn shift_figure(alloc: Global, lists: &Rotations) -> Result<GridFigure, Unserved>
    requires some_list { 0 < length lists.now }
    ensures figure { IfOk result (IsShiftFigure lists.now) }
    ensures served { OnOk result (first_refusal 3 lists.now ≡ None) }
    ensures refused { IfErr result (IfRefused (λ refusal. first_refusal 3 lists.now ≡ Some refusal)) }
{
    grid_figures::shift_figures::shift_figure(alloc, lists)
}

/// Draws the triangulation with these `lists` over `order`, in the memory of `shifter`.
pub fn shifted_draw(
    shifter: &mut Shifter,
    lists: &Rotations,
    order: &Order,
) -> Result<GridFigure, AllocError>
    requires triangulation { IsTriangulation lists.now }
    requires order { (base : Dart) × IsCanonicalOrder lists.now base (vertices_of order.now) }
    ensures { IfOk result (IsShiftOf lists.now (vertices_of order.now)) }
{
    shifter.list_draw(lists, order)
}

/// Draws the map of `lists` by the shift method, in the memory of `drawer`.
pub fn drawn_shift_figure(drawer: &mut Drawer, lists: &Rotations) -> Result<GridFigure, Unserved>
    requires some_list { 0 < length lists.now }
    ensures figure { IfOk result (IsShiftFigure lists.now) }
    ensures served { OnOk result (first_refusal 3 lists.now ≡ None) }
    ensures refused { IfErr result (IfRefused (λ refusal. first_refusal 3 lists.now ≡ Some refusal)) }
{
    drawer.shift_figure(lists)
}
