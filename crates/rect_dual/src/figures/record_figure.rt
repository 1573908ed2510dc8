//! The rectangular dual of one record, or the condition that it breaks.
ghost use Rattle.std.specs.Prelude.{◌≡◌, ◌<◌, length, Some, IfOk, IfErr, OnOk};
ghost use Rattle.half_edges.specs.Map.{IsLive, dart_at};
ghost use Rattle.drawings.specs.Duals.{top_vertex};
ghost use Rattle.refusals.specs.Conditions.{IfRefused};
ghost use Rattle.rect_class.specs.RectMaps.{IsRectMap};
ghost use Rattle.rect_class.specs.Refusals.{BreaksRect};
ghost use Rattle.rect_dual.specs.Figures.{IsRectFigure};

use crate::draw::rect_draw_by_lists;
use half_edges::{DartId, HalfMap, Rotations, VertexId};
use pg_plane::RectFigure;
use rect_class::rect_map;
use refusals::Unserved;
use std::alloc::{AllocError, Global};

// Returns the dart from vertex 0 to its first neighbour, which it has.
fn first_dart(map: &HalfMap) -> DartId
    requires class { IsRectMap map.now.lists }
    ensures live { IsLive map.now result.0 }
    ensures first { dart_at map.now result.0 ≡ Some (0, top_vertex map.now.lists) }
{
    match map.first_dart(VertexId(0)) {
        Some(d) => d,
        None => unreachable!(),
    }
}

/// Returns the rectangular dual of a record with these `lists`, from 1 to 4095: a rectangle for each vertex. Together
/// they fill one of at most n - 2 by n - 2, and two share a side exactly where their vertices are adjacent. The outer
/// face, that of vertex 0's first dart, is walked by the left, the upper, the right and the lower rectangle.
///
/// `Err` names the first condition that the lists break, or says that memory ran out. First come the four faults of a
/// map, each with the least vertices. Then come fewer than three vertices, a genus above zero, more than one component,
/// and a cut vertex, the least. After these come an outer face that is no quadrangle, and another that is no triangle,
/// with its least dart. Last come three edges that bound no face, with the least vertices, and no vertex inside.
///
/// Source: Kant, He, Regular edge labeling of 4-connected plane graphs and its applications in graph drawing problems,
/// 1997.
pub fn rect_figure(alloc: Global, lists: &Rotations) -> Result<RectFigure, Unserved>
    requires some_list { 0 < length lists.now }
    ensures figure { IfOk result (IsRectFigure lists.now) }
    ensures served { OnOk result (IsRectMap lists.now) }
    ensures refused { IfErr result (IfRefused (BreaksRect lists.now)) }
{
    rect_class::biconnected_are_rect_maps();
    rect_orders::rect_duals::dual_for_first();
    let map = rect_map(alloc, lists)?;
    let figure = rect_draw_by_lists(alloc, &map, lists, first_dart(&map))?;
    Ok(figure)
}
