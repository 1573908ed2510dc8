//! Promised contracts of rectangular duals and regular edge labellings.
ghost use Rattle.std.specs.Prelude.{◌≡◌, ◌<◌, length, IfOk, IfErr, ℕ, Some, ◌-◌, OnOk};
ghost use Rattle.half_edges.specs.Map.{IsLive, dart_at};
ghost use Rattle.drawings.specs.Duals.{HasRects};
ghost use Rattle.rect_class.specs.RectMaps.{IsRectMap};
ghost use Rattle.rect_class.specs.Refusals.{BreaksRect};
ghost use Rattle.rect_dual.specs.Figures.{IsRectFigure};
ghost use Rattle.rect_dual.specs.Labellings.{IsLabellingIn, label_in};
ghost use Rattle.rect_dual.specs.declared.labels.label_types.Label.{Label};
ghost use Rattle.rect_orders.specs.Figures.{IsDualFor};
ghost use Rattle.rect_orders.specs.Labellings.{IsByLabelling};
ghost use Rattle.rect_orders.specs.Maps.{IsRectMap as IsFramedMap};
ghost use Rattle.refusals.specs.Conditions.{IfRefused};

use half_edges::HalfMap;
use map_lists::{DartId, Rotations};
use pg_plane::RectFigure;
use rect_dual::figures::RectDrawer;
use rect_dual::{Label, Labelling};
use refusals::Unserved;
use std::alloc::{AllocError, Global};

/// Makes the map of the class with these `lists`, or names the first condition that they break.
pub fn rect_map(alloc: Global, lists: &Rotations) -> Result<HalfMap, Unserved>
    requires some_list { 0 < length lists.now }
    ensures lists { IfOk result (λ map. map.lists ≡ lists.now) }
    ensures served { IfOk result (λ map. IsRectMap lists.now) }
    ensures refused { IfErr result (IfRefused (BreaksRect lists.now)) }
{
    rect_class::rect_map(alloc, lists)
}

/// Draws `map` as rectangles, with the left one and the top one at `base`.
pub fn rect_draw(alloc: Global, map: &HalfMap, base: DartId) -> Result<RectFigure, AllocError>
    requires live { IsLive map.now base.0 }
    requires class { (s : ℕ) × (d : ℕ) × (p : ℕ) × (t : ℕ) × (dart_at map.now base.0 ≡ Some (s, d)) × IsFramedMap map.now.lists s d p t }
    ensures rects { IfOk result (HasRects map.now.lists) }
    ensures dual { IfOk result (λ figure. (s d p t : ℕ) → dart_at map.now base.0 ≡ Some (s, d) → IsFramedMap map.now.lists s d p t → IsDualFor map.now.lists s d p t figure) }
    ensures labelling { IfOk result (λ figure. (s d p t : ℕ) → dart_at map.now base.0 ≡ Some (s, d) → IsFramedMap map.now.lists s d p t → IsByLabelling map.now.lists s d p t figure) }
{
    rect_dual::rect_draw(alloc, map, base)
}

/// Returns a regular edge labelling of `map`.
pub fn edge_labels(alloc: Global, map: &HalfMap, base: DartId) -> Result<Labelling, AllocError>
    requires live { IsLive map.now base.0 }
    requires class { (s : ℕ) × (d : ℕ) × (p : ℕ) × (t : ℕ) × (dart_at map.now base.0 ≡ Some (s, d)) × IsFramedMap map.now.lists s d p t }
    ensures covers { IfOk result (λ labels. (id : ℕ) → IsLive map.now id → id < length labels) }
    ensures labelling { IfOk result (λ labels. (s d p t : ℕ) → dart_at map.now base.0 ≡ Some (s, d) → IsFramedMap map.now.lists s d p t → IsLabellingIn map.now s d p t labels) }
{
    rect_dual::edge_labels(alloc, map, base)
}

/// Counts the labels.
pub fn label_count(labels: &Labelling) -> usize
    ensures { result ≡ length labels.now }
{
    labels.len()
}

/// Returns the label of `d`.
pub fn label(labels: &Labelling, d: DartId) -> Label
    requires { d.0 < length labels.now }
    ensures { result ≡ label_in labels.now d.0 }
{
    labels.of(d)
}

/// Draws the map of `lists` as rectangles, or names the first condition that it breaks.
pub fn rect_figure(alloc: Global, lists: &Rotations) -> Result<RectFigure, Unserved>
    requires some_list { 0 < length lists.now }
    ensures figure { IfOk result (IsRectFigure lists.now) }
    ensures served { OnOk result (IsRectMap lists.now) }
    ensures refused { IfErr result (IfRefused (BreaksRect lists.now)) }
{
    rect_dual::figures::rect_figure(alloc, lists)
}

/// Draws the map of `lists` by a `drawer` that may have drawn others, or names the first condition that it breaks.
pub fn next_rect_figure(drawer: &mut RectDrawer, lists: &Rotations) -> Result<RectFigure, Unserved>
    requires some_list { 0 < length lists.now }
    ensures figure { IfOk result (IsRectFigure lists.now) }
    ensures served { OnOk result (IsRectMap lists.now) }
    ensures refused { IfErr result (IfRefused (BreaksRect lists.now)) }
{
    drawer.figure(lists)
}
