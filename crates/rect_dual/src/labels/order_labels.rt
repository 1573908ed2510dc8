//! The public call `edge_labels`, which finds the edge labelling of a map by a rectangular order.
ghost use Rattle.std.specs.Prelude.{◌≡◌, ◌<◌, ◌-◌, ℕ, length, Some, IfOk};
ghost use Rattle.map_theory.specs.Maps.{follows};
ghost use Rattle.half_edges.specs.Map.{IsLive, dart_at};
ghost use Rattle.rect_orders.specs.Maps.{IsRectMap};
ghost use Rattle.rect_dual.specs.Labellings.{IsLabellingIn};

use crate::framed_orders::map_order;
use crate::labels::horizontal_edges::run_tables;
use crate::labels::label_types::Labelling;
use crate::labels::labelled_darts::Ranked;
use crate::rect_turns::{TurnedRows, row_turns};
use half_edges::{DartId, HalfMap};
use rect_orders::rect_order::{Frame, frame_of};
use std::alloc::{AllocError, Global};

// Returns the labelling of `map` whose outer face has the vertices of `frame`. It fails only when out of memory.
fn framed(alloc: Global, map: &HalfMap, frame: Frame) -> Result<Labelling, AllocError>
    requires class { IsRectMap map.now.lists frame.left.0 frame.top.0 frame.right.0 frame.bottom.0 }
    requires inner { frame.inner.0 ≡ follows map.now.lists frame.bottom.0 frame.left.0 }
    ensures covers { IfOk result (λ labels. (id : ℕ) → IsLive map.now id → id < length labels) }
    ensures labelling { IfOk result (IsLabellingIn map.now frame.left.0 frame.top.0 frame.right.0 frame.bottom.0) }
{
    rect_orders::rect_order_is_run();
    order_drawings::order_runs::order_is_run();
    rect_orders::rect_labellings::labels_of_order();
    let made = map_order(alloc, map, frame)?;
    let turns = row_turns(alloc, &made.rows)?;
    let turned = TurnedRows {
        rows: &made.rows,
        places: &turns.place,
        runs: &turns.run,
    };
    let tables = run_tables(alloc, &turned)?;
    let ranked = Ranked {
        map,
        frame: &frame,
        ranks: &made.order.rank,
        tables: &tables,
    };
    let labels = ranked.dart_labels(alloc)?;
    Ok(Labelling { labels })
}

/// Returns a regular edge labelling (transversal structure) of a map of the class of the job `rect`, whose outer face
/// is that of the base dart. Each edge off that face is horizontal (a run) or vertical (a rise), with a direction.
/// Clockwise round each inner vertex come entering runs, leaving rises, leaving runs and entering rises, at least one
/// of each. The outer face is walked along four vertices, from the one that the base dart leaves. Of their inner edges
/// those at the first are leaving runs, at the second entering rises, at the third entering runs, and at the fourth
/// leaving rises.
///
/// It fails only when out of memory, and the map stays as it is. The time is linear in the map: two tables over the
/// vertices, from the rows and turns of a rectangular order, tell the label of each dart.
///
/// Source: Kant, He, Regular edge labeling of 4-connected plane graphs and its applications in graph drawing problems,
/// 1997.
pub fn edge_labels(alloc: Global, map: &HalfMap, base: DartId) -> Result<Labelling, AllocError>
    requires live { IsLive map.now base.0 }
    requires class { (s : ℕ) × (d : ℕ) × (p : ℕ) × (t : ℕ) × (dart_at map.now base.0 ≡ Some (s, d)) × IsRectMap map.now.lists s d p t }
    ensures covers { IfOk result (λ labels. (id : ℕ) → IsLive map.now id → id < length labels) }
    ensures labelling { IfOk result (λ labels. (s d p t : ℕ) → dart_at map.now base.0 ≡ Some (s, d) → IsRectMap map.now.lists s d p t → IsLabellingIn map.now s d p t labels) }
{
    framed(alloc, map, frame_of(map, base))
}
