//! A rectangular order of a map, with the rows of its construction sequence.
ghost use Rattle.std.specs.Prelude.{◌≡◌, ◌<◌, length, All, IfOk};
ghost use Rattle.map_theory.specs.Maps.{follows};
ghost use Rattle.canon_order.specs.Orders.{vertices_of};
ghost use Rattle.rect_orders.specs.Maps.{IsRectMap};
ghost use Rattle.rect_dual.specs.RectDrawTables.{HasLowerRows};

use canon_order::Order;
use half_edges::{HalfMap, Rotations};
use order_drawings::order_tables::rows_into;
use rect_orders::rect_order::{Frame, rect_order, with_closing_edge};
use std::alloc::{AllocError, Global};

// A rectangular order, and the rows of its vertices but the last: for each the contour interval that it covers.
#[derive(Drop)]
pub(crate) struct FramedOrder {
    pub order: Order,
    pub rows: Rotations,
}

// Returns a rectangular order of the map `lists`, of the class of `rect` with outer vertices `frame`, and its rows (the
// contour interval under each vertex). The rows are of the map with an edge added between top and bottom.
pub(crate) fn framed_order(
    alloc: Global,
    lists: &Rotations,
    frame: Frame,
) -> Result<FramedOrder, AllocError>
    requires class { IsRectMap lists.now frame.left.0 frame.top.0 frame.right.0 frame.bottom.0 }
    requires inner { frame.inner.0 ≡ follows lists.now frame.bottom.0 frame.left.0 }
    ensures rows { IfOk result (λ made. HasLowerRows lists.now frame.left.0 frame.top.0 frame.right.0 frame.bottom.0 (vertices_of made.order) made.order.rank made.rows) }
    ensures ranks { IfOk result (λ made. All (λ k. k < length made.order.rank) made.order.rank) }
{
    rect_orders::closed_is_triangulation();
    order_drawings::order_tables::ranks_are_places();
    let more = with_closing_edge(alloc, lists, frame)?;
    let order = rect_order(alloc, &more, frame)?;
    let mut rows = rows_into(Rotations::new(alloc), &more, &order)?;
    let lower = rows.len() - 1;
    rows.truncate(lower);
    Ok(FramedOrder { order, rows })
}

// Like [`framed_order`], but for a half-edge map of that class. It fails only when out of memory.
pub(crate) fn map_order(
    alloc: Global,
    map: &HalfMap,
    frame: Frame,
) -> Result<FramedOrder, AllocError>
    requires class { IsRectMap map.now.lists frame.left.0 frame.top.0 frame.right.0 frame.bottom.0 }
    requires inner { frame.inner.0 ≡ follows map.now.lists frame.bottom.0 frame.left.0 }
    ensures rows { IfOk result (λ made. HasLowerRows map.now.lists frame.left.0 frame.top.0 frame.right.0 frame.bottom.0 (vertices_of made.order) made.order.rank made.rows) }
    ensures ranks { IfOk result (λ made. All (λ k. k < length made.order.rank) made.order.rank) }
{
    let lists = map.rotations(alloc)?;
    let made = framed_order(alloc, &lists, frame)?;
    Ok(made)
}
