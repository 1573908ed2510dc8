//! The public calls that draw a rectangular dual, and the box of each vertex by its rank.
ghost use Rattle.std.specs.Prelude.{◌≡◌, ◌<◌, ◌^◌, ℕ, length, slice_index, Some, All, IfOk, pos};
ghost use Rattle.map_theory.specs.Maps.{follows};
ghost use Rattle.half_edges.specs.Map.{IsLive, dart_at};
ghost use Rattle.drawings.specs.Duals.{HasRects};
ghost use Rattle.rect_orders.specs.Maps.{IsRectMap};
ghost use Rattle.rect_orders.specs.Figures.{IsDualFor};
ghost use Rattle.rect_orders.specs.Labellings.{IsByLabelling};
ghost use Rattle.rect_dual.specs.RectDrawTables.{AreSized, AreSmall, AreAtRanks};

use crate::draw::box_sides::{BoxTables, box_tables};
use crate::framed_orders::framed_order;
use half_edges::{Counts, DartId, HalfMap, Rotations};
use pg_plane::{Ints, RectFigure};
use rect_orders::rect_order::{Frame, frame_of};
use std::alloc::{AllocError, Global};

// Converts `number`, below 2^20, to a coordinate.
fn coordinate(number: u32) -> i32
    requires { number < 2 ^ 20 }
    ensures { result ≡ pos number }
{
    number as i32
}

// Returns for each vertex the entry of `numbers` at its rank. It fails only when out of memory.
fn numbers_at(alloc: Global, numbers: &[u32], ranks: &Counts) -> Result<Ints, AllocError>
    requires ranks { All (λ k. k < length numbers.now) ranks.now }
    requires small { (k : ℕ) → k < length numbers.now → slice_index numbers.now k < 2 ^ 20 }
    ensures { IfOk result (AreAtRanks numbers.now ranks.now) }
{
    let mut made = vec![in alloc; 0; ranks.len()]?;
    for v in 0..ranks.len() {
        made[v] = coordinate(numbers[ranks.get(v) as usize]);
    }
    Ok(Ints::from_vec(made))
}

// Returns the figure in which each vertex has the box of its rank. It fails only when out of memory.
fn figure_at(alloc: Global, tables: &BoxTables, ranks: &Counts) -> Result<RectFigure, AllocError>
    requires ranks { All (λ k. k < length ranks.now) ranks.now }
    requires sizes { AreSized (length ranks.now) tables.now.left.items tables.now.right.items tables.now.low.items tables.now.high.items }
    requires small { AreSmall (length ranks.now) tables.now.left.items tables.now.right.items tables.now.low.items tables.now.high.items }
    ensures x1 { IfOk result (λ fig. AreAtRanks tables.now.left.items ranks.now fig.x1) }
    ensures x2 { IfOk result (λ fig. AreAtRanks tables.now.right.items ranks.now fig.x2) }
    ensures y1 { IfOk result (λ fig. AreAtRanks tables.now.low.items ranks.now fig.y1) }
    ensures y2 { IfOk result (λ fig. AreAtRanks tables.now.high.items ranks.now fig.y2) }
{
    let x1 = numbers_at(alloc, &tables.left, ranks)?;
    let x2 = numbers_at(alloc, &tables.right, ranks)?;
    let y1 = numbers_at(alloc, &tables.low, ranks)?;
    let y2 = numbers_at(alloc, &tables.high, ranks)?;
    Ok(RectFigure { x1, x2, y1, y2 })
}

// Returns the rectangular dual of the map with these `lists`, of the class of `rect`, whose outer face has the vertices
// of `frame`. It fails only when out of memory.
pub(crate) fn framed(
    alloc: Global,
    lists: &Rotations,
    frame: Frame,
) -> Result<RectFigure, AllocError>
    requires class { IsRectMap lists.now frame.left.0 frame.top.0 frame.right.0 frame.bottom.0 }
    requires inner { frame.inner.0 ≡ follows lists.now frame.bottom.0 frame.left.0 }
    ensures rects { IfOk result (HasRects lists.now) }
    ensures dual { IfOk result (IsDualFor lists.now frame.left.0 frame.top.0 frame.right.0 frame.bottom.0) }
    ensures labelling { IfOk result (IsByLabelling lists.now frame.left.0 frame.top.0 frame.right.0 frame.bottom.0) }
{
    lists.facts();
    rect_orders::rect_order_is_run();
    order_drawings::order_runs::order_is_run();
    rect_runs::rect_boxes::boxes_are_dual();
    rect_orders::rect_duals::boxes_are_dual_of_map();
    rect_orders::rect_labellings::boxes_by_labelling();
    let made = framed_order(alloc, lists, frame)?;
    let tables = box_tables(alloc, &made.rows)?;
    let figure = figure_at(alloc, &tables, &made.order.rank)?;
    Ok(figure)
}

/// Returns a rectangular dual of a map of the class of the job `rect`, whose outer face is that of the dart `base`.
/// It has a rectangle for each vertex. Together they fill one of at most n - 2 by n - 2, and two share a side of
/// positive length exactly where their vertices are adjacent. The outer face is walked by the left, the upper, the
/// right and the lower rectangle, of which the base dart leaves the first. Each edge off that face is a run
/// (horizontal) or a rise (vertical) of a regular edge labelling. Along a run one rectangle ends on the right where
/// the other begins, along a rise above.
///
/// It fails only when out of memory, and the map stays as it is.
///
/// Source: Kant, He, Regular edge labeling of 4-connected plane graphs and its applications in graph drawing
/// problems, 1997.
pub fn rect_draw(alloc: Global, map: &HalfMap, base: DartId) -> Result<RectFigure, AllocError>
    requires live { IsLive map.now base.0 }
    requires class { (s : ℕ) × (d : ℕ) × (p : ℕ) × (t : ℕ) × (dart_at map.now base.0 ≡ Some (s, d)) × IsRectMap map.now.lists s d p t }
    ensures rects { IfOk result (HasRects map.now.lists) }
    ensures dual { IfOk result (λ figure. (s d p t : ℕ) → dart_at map.now base.0 ≡ Some (s, d) → IsRectMap map.now.lists s d p t → IsDualFor map.now.lists s d p t figure) }
    ensures labelling { IfOk result (λ figure. (s d p t : ℕ) → dart_at map.now base.0 ≡ Some (s, d) → IsRectMap map.now.lists s d p t → IsByLabelling map.now.lists s d p t figure) }
{
    let lists = map.rotations(alloc)?;
    rect_draw_by_lists(alloc, map, &lists, base)
}

// Draws `map` over `base` as `rect_draw` does, by its `lists`.
pub(crate) fn rect_draw_by_lists(
    alloc: Global,
    map: &HalfMap,
    lists: &Rotations,
    base: DartId,
) -> Result<RectFigure, AllocError>
    requires lists { lists.now ≡ map.now.lists }
    requires live { IsLive map.now base.0 }
    requires class { (s : ℕ) × (d : ℕ) × (p : ℕ) × (t : ℕ) × (dart_at map.now base.0 ≡ Some (s, d)) × IsRectMap map.now.lists s d p t }
    ensures rects { IfOk result (HasRects map.now.lists) }
    ensures dual { IfOk result (λ figure. (s d p t : ℕ) → dart_at map.now base.0 ≡ Some (s, d) → IsRectMap map.now.lists s d p t → IsDualFor map.now.lists s d p t figure) }
    ensures labelling { IfOk result (λ figure. (s d p t : ℕ) → dart_at map.now base.0 ≡ Some (s, d) → IsRectMap map.now.lists s d p t → IsByLabelling map.now.lists s d p t figure) }
{
    framed(alloc, lists, frame_of(map, base))
}
