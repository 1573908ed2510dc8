//! The public call `wood`: the Schnyder wood of a canonical order.
ghost use Rattle.std.specs.Prelude.{◌≡◌, ◌<◌, ◌+◌, ◌-◌, ℕ, length, slice_index, All, IfOk};
ghost use Rattle.map_theory.specs.Maps.{Dart, vertex_count};
ghost use Rattle.plane_laws.specs.Triangulations.{IsTriangulation};
ghost use Rattle.canon_order.specs.Orders.{IsCanonicalOrder, vertices_of};
ghost use Rattle.contour_runs.specs.Runs.{Step};
ghost use Rattle.order_drawings.specs.OrderRuns.{IsOrderRun};
ghost use Rattle.wood_laws.specs.Woods.{AreParentsOf};
ghost use Rattle.order_drawings.specs.Rows.{AreRows};
ghost use Rattle.schnyder_wood.specs.Parents.{parent_in, IsWoodOf};
ghost use Rattle.schnyder_wood.specs.Tables.{AreParentsAt};

use crate::parents_by_rank::{find_parents, name_of, named};
use crate::woods::Wood;
use canon_order::Order;
use half_edges::{HalfMap, Rotations};
use order_drawings::order_tables::order_rows;
use std::alloc::{AllocError, Global};

// For each vertex its parent of each colour.
#[derive(Drop)]
struct Tables {
    ones: Vec<u16>,
    twos: Vec<u16>,
    threes: Vec<u16>,
}

// Returns the parents of all vertices, for `rows` as in `find_parents` and `order`. It fails only when out of memory.
fn parent_tables(alloc: Global, rows: &Rotations, order: &Order) -> Result<Tables, AllocError>
    requires few { length order.now.rank < 4096 }
    requires count { length (vertices_of order.now) ≡ length order.now.rank }
    requires rows { length rows.now + 2 ≡ length order.now.rank }
    requires ranks { All (λ k. k < length order.now.rank) order.now.rank }
    requires run { (steps : ℕ → Step) × AreRows steps rows.now }
    ensures { IfOk result (λ tables. (steps : ℕ → Step) → AreRows steps rows.now
        → AreParentsAt steps (length rows.now) order.now.rank (vertices_of order.now) tables.ones.items tables.twos.items tables.threes.items) }
{
    let n = order.rank.len();
    let mut firsts = vec![in alloc; 0; n]?;
    let mut lasts = vec![in alloc; 0; n]?;
    let mut covers = vec![in alloc; 0; n]?;
    find_parents(&mut firsts, &mut lasts, &mut covers, rows);
    let ones = named(alloc, &firsts, order)?;
    let twos = named(alloc, &lasts, order)?;
    let threes = named(alloc, &covers, order)?;
    Ok(Tables { ones, twos, threes })
}

/// Returns the Schnyder wood of the canonical `order` of the triangulation `tri`: a simple map of genus zero with n >=
/// 3 vertices and 3n - 6 edges.
///
/// The roots of the colours one, two and three are the order's first, second and last vertex. The parents of colours
/// one and two of a vertex are the first and the last of its earlier neighbours, along the outer cycle at that time.
/// That of colour three is the vertex that takes it off the outer cycle.
///
/// It fails only when out of memory. The map and the order stay as they are. The time is linear in the map's entries.
///
/// Source: Schnyder, Embedding planar graphs on the grid, 1990.
pub fn wood(alloc: Global, tri: &HalfMap, order: &Order) -> Result<Wood, AllocError>
    requires triangulation { IsTriangulation tri.now.lists }
    requires order { (base : Dart) × IsCanonicalOrder tri.now.lists base (vertices_of order.now) }
    ensures root_one { IfOk result (λ wood. wood.root_one ≡ slice_index (vertices_of order.now) 0) }
    ensures root_two { IfOk result (λ wood. wood.root_two ≡ slice_index (vertices_of order.now) 1) }
    ensures root_three { IfOk result (λ wood. wood.root_three ≡ slice_index (vertices_of order.now) (vertex_count tri.now.lists - 1)) }
    ensures wood { IfOk result (λ wood. (base : Dart) → IsCanonicalOrder tri.now.lists base (vertices_of order.now) → IsWoodOf tri.now.lists base wood) }
    ensures parents { IfOk result (λ wood. (base : Dart) (canonical : IsCanonicalOrder tri.now.lists base (vertices_of order.now)) (steps : ℕ → Step)
        → IsOrderRun tri.now.lists base (vertices_of order.now) canonical.cycle steps → AreParentsOf (vertices_of order.now) steps (parent_in wood)) }
{
    order_drawings::order_tables::ranks_are_places();
    order_drawings::order_runs::order_is_run();
    wood_laws::order_woods::wood_of_order();
    let last = order.at.len() - 1;
    let rows = order_rows(alloc, tri, order)?;
    let tables = parent_tables(alloc, &rows, order)?;
    Ok(Wood {
        root_one: name_of(order, 0),
        root_two: name_of(order, 1),
        root_three: name_of(order, last as u16),
        ones: tables.ones,
        twos: tables.twos,
        threes: tables.threes,
    })
}
