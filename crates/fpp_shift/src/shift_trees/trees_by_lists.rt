//! Makes the tree of offsets by the lists of a map, and finds the ends of attachment intervals by list entries.
ghost use Rattle.std.specs.Prelude.{◌≡◌, ◌<◌, ◌≤◌, ◌+◌, ◌*◌, ℕ, length, slice_index};
ghost use Rattle.map_lists.specs.Lists.{Lists};
ghost use Rattle.map_theory.specs.Maps.{Dart, vertex_count};
ghost use Rattle.plane_laws.specs.Triangulations.{IsTriangulation};
ghost use Rattle.canon_order.specs.Orders.{IsCanonicalOrder, vertices_of};
ghost use Rattle.fpp_shift.specs.ShiftTreesRows.{IsListOf, BeginsRow, EndsRow};
ghost use Rattle.fpp_shift.specs.Ways.{IsTree};
ghost use Rattle.fpp_shift.specs.Trees.{IsTreeOf};

use crate::offset_trees::{Offsets, begin_tree, put_over};
use crate::shift_trees::attachment_intervals::order_has_rows;
use canon_order::Order;
use half_edges::{Rotations, VertexId};
use order_drawings::order_tables::RankedList;
use pg_io::Steps;
use std::sync::ledger::Ledger;

// Returns the first and the last vertex of the attachment interval of the vertex whose ranked list is `row`. In its
// list the interval lies between later neighbours; where none is later it goes from `s` to `t`, the base's ends.
fn interval_in(row: &RankedList<'_>, s: u16, t: u16) -> (u16, u16)
    requires { 0 < length row.now.list.now }
    ensures begin { (lists : Lists) (v p : ℕ) → IsListOf lists v row.now.list.now → BeginsRow lists row.now.ranks.now row.now.k v p → (slice_index row.now.ranks.now p ≡ 0 → p ≡ s)
        → BeginsRow lists row.now.ranks.now row.now.k v result.0 }
    ensures end { (lists : Lists) (v q : ℕ) → IsListOf lists v row.now.list.now → EndsRow lists row.now.ranks.now row.now.k v q → (slice_index row.now.ranks.now q ≡ 1 → q ≡ t)
        → EndsRow lists row.now.ranks.now row.now.k v result.1 }
{
    let list = row.list;
    let k = row.k;
    let first = row.first_earlier(0);
    if first == list.len() {
        return (s, t);
    }
    let end = row.first_later(first + 1);
    if 0 < first {
        return (list[end - 1], list[first]);
    }
    if end == list.len() {
        return (s, t);
    }
    let last = row.rank(list.len() - 1);
    if k <= last {
        return (list[end - 1], list[0]);
    }
    let again = row.first_earlier(end);
    (list[end - 1], list[again])
}

/// Makes `tree` the tree of offsets of the canonical `order` of the triangulation `lists`. It has a node for each
/// vertex, of any content before. Adds at most 24 for each vertex to `steps`.
pub(crate) fn list_tree<L: Ledger>(
    lists: &Rotations,
    order: &Order,
    tree: &mut Offsets<L>,
    steps: &mut Steps<L>,
)
    requires triangulation { IsTriangulation lists.now }
    requires order { (base : Dart) × IsCanonicalOrder lists.now base (vertices_of order.now) }
    requires nodes { length tree.old ≡ vertex_count lists.now }
    ensures tree { IsTreeOf lists.now (vertices_of order.now) tree.new }
    ensures links { IsTree tree.new (slice_index (vertices_of order.now) 0) }
    ensures count { length tree.new ≡ length tree.old }
    ensures steps { steps.new ≤ steps.old + 24 * vertex_count lists.now }
    ensures never_falls { steps.old ≤ steps.new }
{
    lists.facts();
    order_has_rows();
    order_drawings::order_runs::order_is_run();
    contour_runs::face_count();
    crate::offset_trees::grown_is_offset_tree();
    let s = order.at.get(0);
    let t = order.at.get(1);
    begin_tree(tree, s, t, steps);
    for k in 2..order.at.len() {
        let v = order.at.get(k);
        let list = lists.list(v.0 as usize);
        let ranked = RankedList {
            list,
            ranks: &order.rank,
            k: k as u32,
        };
        let row = interval_in(&ranked, s.0, t.0);
        put_over(tree, v, (VertexId(row.0), VertexId(row.1)), steps);
    }
}
