//! The visibility drawing of one record, or the condition that it breaks.
ghost use Rattle.std.specs.Prelude.{◌≡◌, ◌<◌, length, Some, IfOk, IfErr, OnOk};
ghost use Rattle.half_edges.specs.Map.{IsLive, dart_at, first_dart as first_of};
ghost use Rattle.refusals.specs.Conditions.{IfRefused};
ghost use Rattle.conn_parts.specs.BiconnectedMaps.{IsBiconnectedMap, BreaksFirst};
ghost use Rattle.visibility.specs.Figures.{IsBarFigure};

use crate::bars_of_ranks;
use conn_parts::biconnected_maps::searched_map;
use half_edges::{DartId, HalfMap, Rotations, VertexId};
use pg_plane::BarFigure;
use refusals::Unserved;
use st_orders::st_ranks;
use std::alloc::Global;

// Returns the dart from vertex 0 to its first neighbour; `map` is biconnected, with three vertices or more.
fn first_dart(map: &HalfMap) -> DartId
    requires biconnected { IsBiconnectedMap 3 map.now.lists }
    ensures live { IsLive map.now result.0 }
    ensures first { dart_at map.now result.0 ≡ Some (first_of map.now.lists 0) }
{
    match map.first_dart(VertexId(0)) {
        Some(d) => d,
        None => unreachable!(),
    }
}

/// Returns the visibility drawing of a record with these `lists`, from 1 to 4095. Each vertex is a horizontal bar, and
/// each edge a column between the bars of its ends, over a width of one less than the number of faces.
///
/// The heights are an st-order from vertex 0 to the first of its list, and the columns are its dual numbers. Each bar
/// reaches from its least column to its greatest.
///
/// `Err` names the first condition that the lists break, or says that memory ran out. First come the faults of a map
/// (an entry out of range, a loop, a repeat, a one-sided edge), each with the least vertices. Then come fewer than
/// three vertices, a genus above zero, a second component, and the least cut vertex. The time is linear in the entries.
///
/// Source: Tamassia, Tollis, A unified approach to visibility representations of planar graphs, 1986.
pub fn bar_figure(alloc: Global, lists: &Rotations) -> Result<BarFigure, Unserved>
    requires some_list { 0 < length lists.now }
    ensures figure { IfOk result (IsBarFigure lists.now) }
    ensures served { OnOk result (IsBiconnectedMap 3 lists.now) }
    ensures refused { IfErr result (IfRefused (BreaksFirst 3 lists.now)) }
{
    let found = searched_map(alloc, lists, 3)?;
    let st = first_dart(&found.map);
    let t = lists.list(0)[0];
    let rank = st_ranks(alloc, lists, &found.forest, &found.low, 0, t)?;
    let figure = bars_of_ranks(alloc, lists, &found.map, &rank, st)?;
    Ok(figure)
}
