//! The public calls that draw a map by bars: by an st-order, by its ranks, or for a dart.
ghost use Rattle.std.specs.Prelude.{◌≡◌, ◌<◌, ◌-◌, ℕ, pos, length, Some, IfOk};
ghost use Rattle.map_theory.specs.Maps.{IsPlane, component_count};
ghost use Rattle.graph_search.specs.Cuts.{IsCutVertex};
ghost use Rattle.half_edges.specs.Map.{IsLive, dart_at};
ghost use Rattle.st_orders.specs.StOrders.{IsStOrderOf};
ghost use Rattle.bipolar.specs.Numbered.{IsStOf};
ghost use Rattle.visibility.specs.Bars.{AreBarsOf, AreBarsFor};

use crate::bar_ends::{coordinates, left_ends, right_ends};
use bipolar::dual_orders::{edge_columns, rank_rows};
use half_edges::{Counts, DartId, HalfMap, Rotations};
use pg_plane::BarFigure;
use st_orders::{StOrder, st_order};
use std::alloc::{AllocError, Global};

/// Returns the visibility drawing of the connected `map` of genus zero with these `lists`. `rank` has each vertex's
/// rank in an st-order for the dart `st`. Heights are ranks, columns are dual numbers, and each bar reaches from its
/// least to its greatest column. It fails only when out of memory.
pub fn bars_of_ranks(
    alloc: Global,
    lists: &Rotations,
    map: &HalfMap,
    rank: &Counts,
    st: DartId,
) -> Result<BarFigure, AllocError>
    requires lists { lists.now ≡ map.now.lists }
    requires live { IsLive map.now st.0 }
    requires order { IsStOf map.now rank.now st.0 }
    ensures { IfOk result (AreBarsOf map.now rank.now st.0) }
{
    let rows = rank_rows(alloc, map, rank, st)?;
    let columns = edge_columns(alloc, lists, &rows, map.m())?;
    let y = coordinates(alloc, rank)?;
    let x1 = left_ends(alloc, &rows)?;
    let x2 = right_ends(alloc, &rows)?;
    let column = coordinates(alloc, &columns)?;
    Ok(BarFigure { y, x1, x2, column })
}

/// Returns the visibility drawing by the st-order `order`, for the dart `st`, of a connected `map` of genus zero.
/// Heights are ranks, columns dual numbers, bars reach from least to greatest column. Fails only when out of memory.
pub fn bars_of_order(
    alloc: Global,
    map: &HalfMap,
    order: &StOrder,
    st: DartId,
) -> Result<BarFigure, AllocError>
    requires live { IsLive map.now st.0 }
    requires plane { IsPlane map.now.lists }
    requires connected { component_count map.now.lists ≡ 1 }
    requires order { (s t : ℕ) → dart_at map.now st.0 ≡ Some (s, t) → IsStOrderOf map.now.lists s t order.now }
    ensures { IfOk result (AreBarsOf map.now order.now.rank st.0) }
{
    let lists = map.rotations(alloc)?;
    let figure = bars_of_ranks(alloc, &lists, map, &order.rank, st)?;
    Ok(figure)
}

/// Returns a visibility drawing of a connected `map` of genus zero without cut vertices, by an st-order for the dart
/// `st`. Its width is one less than the number of faces. It fails only when out of memory.
pub fn bars(alloc: Global, map: &HalfMap, st: DartId) -> Result<BarFigure, AllocError>
    requires live { IsLive map.now st.0 }
    requires plane { IsPlane map.now.lists }
    requires connected { component_count map.now.lists ≡ 1 }
    requires uncut { (v : ℕ) → ¬ IsCutVertex map.now.lists v }
    ensures { IfOk result (AreBarsFor map.now st.0) }
{
    let order = st_order(alloc, map, st)?;
    let figure = bars_of_order(alloc, map, &order, st)?;
    Ok(figure)
}
