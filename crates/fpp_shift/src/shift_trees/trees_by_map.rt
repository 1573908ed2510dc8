//! The public call `offset_tree`, which makes the tree of offsets of a canonical order by a half-edge map.
ghost use Rattle.std.specs.Prelude.{◌≡◌, ◌≤◌, ◌+◌, ◌*◌, length, slice_index};
ghost use Rattle.map_theory.specs.Maps.{Dart, vertex_count};
ghost use Rattle.plane_laws.specs.Triangulations.{IsTriangulation};
ghost use Rattle.canon_order.specs.Orders.{IsCanonicalOrder, vertices_of};
ghost use Rattle.fpp_shift.specs.Ways.{IsTree};
ghost use Rattle.fpp_shift.specs.Trees.{IsTreeOf};

use crate::offset_trees::{Offsets, begin_tree, put_over};
use crate::shift_trees::attachment_intervals::{OrderedMap, order_has_rows};
use canon_order::Order;
use half_edges::HalfMap;
use pg_io::Steps;
use std::sync::ledger::Ledger;

/// Makes `tree` the tree of offsets of the canonical `order` of the triangulation `tri`, whatever its nodes were. Its
/// links lead from the first vertex of the order to each other one, and it adds up to the points of the shift method.
///
/// Each use of the tree adds one to `steps`: at most 24 for each vertex. It takes no memory and refuses nothing.
///
/// The map and the order stay as they are. The time is linear in the entries of the map. One round of a vertex's darts
/// finds the ends of the contour interval under it, and right links of the tree lead from one to the other.
///
/// Source: Chrobak, Payne, A linear-time algorithm for drawing a planar graph on a grid, 1995.
pub fn offset_tree<L: Ledger>(
    tri: &HalfMap,
    order: &Order,
    tree: &mut Offsets<L>,
    steps: &mut Steps<L>,
)
    requires triangulation { IsTriangulation tri.now.lists }
    requires order { (base : Dart) × IsCanonicalOrder tri.now.lists base (vertices_of order.now) }
    requires nodes { length tree.old ≡ vertex_count tri.now.lists }
    ensures tree { IsTreeOf tri.now.lists (vertices_of order.now) tree.new }
    ensures links { IsTree tree.new (slice_index (vertices_of order.now) 0) }
    ensures count { length tree.new ≡ length tree.old }
    ensures steps { steps.new ≤ steps.old + 24 * vertex_count tri.now.lists }
    ensures never_falls { steps.old ≤ steps.new }
{
    order_has_rows();
    order_drawings::order_runs::order_is_run();
    contour_runs::face_count();
    crate::offset_trees::grown_is_offset_tree();
    let ranked = OrderedMap {
        map: tri,
        ranks: &order.rank,
    };
    begin_tree(tree, order.at.get(0), order.at.get(1), steps);
    for k in 2..order.at.len() {
        let v = order.at.get(k);
        let p = ranked.interval_begin(v, k as u32);
        let q = ranked.interval_end(v, k as u32);
        put_over(tree, v, (p, q), steps);
    }
}
