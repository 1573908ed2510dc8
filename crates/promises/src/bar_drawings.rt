//! Promised contracts of the calls that draw visibility representations.
ghost use Rattle.std.specs.Prelude.{◌≡◌, ◌<◌, ◌-◌, ℕ, IfOk, length, IfErr, OnOk};
ghost use Rattle.conn_parts.specs.BiconnectedMaps.{IsBiconnectedMap, BreaksFirst};
ghost use Rattle.graph_search.specs.Cuts.{IsCutVertex};
ghost use Rattle.half_edges.specs.Map.{IsLive};
ghost use Rattle.map_theory.specs.Maps.{IsPlane, component_count};
ghost use Rattle.refusals.specs.Conditions.{IfRefused};
ghost use Rattle.visibility.specs.Bars.{AreBarsFor};
ghost use Rattle.visibility.specs.Figures.{IsBarFigure};

use half_edges::HalfMap;
use map_lists::{DartId, Rotations};
use pg_plane::BarFigure;
use refusals::Unserved;
use std::alloc::{AllocError, Global};
use visibility::bar_figures::BarDrawer;

/// Draws a biconnected `map` of genus zero by the st-order for `st`.
pub fn bars(alloc: Global, map: &HalfMap, st: DartId) -> Result<BarFigure, AllocError>
    requires live { IsLive map.now st.0 }
    requires plane { IsPlane map.now.lists }
    requires connected { component_count map.now.lists ≡ 1 }
    requires uncut { (v : ℕ) → ¬ IsCutVertex map.now.lists v }
    ensures { IfOk result (AreBarsFor map.now st.0) }
{
    visibility::bars(alloc, map, st)
}

/// Draws the map of `lists`, or names the first condition that it breaks.
pub fn bar_figure(alloc: Global, lists: &Rotations) -> Result<BarFigure, Unserved>
    requires some_list { 0 < length lists.now }
    ensures figure { IfOk result (IsBarFigure lists.now) }
    ensures served { OnOk result (IsBiconnectedMap 3 lists.now) }
    ensures refused { IfErr result (IfRefused (BreaksFirst 3 lists.now)) }
{
    visibility::bar_figures::bar_figure(alloc, lists)
}

/// Draws the map of `lists` by a `drawer` that may have drawn others, or names the first condition that it breaks.
pub fn next_bar_figure(drawer: &mut BarDrawer, lists: &Rotations) -> Result<BarFigure, Unserved>
    requires some_list { 0 < length lists.now }
    ensures figure { IfOk result (IsBarFigure lists.now) }
    ensures served { OnOk result (IsBiconnectedMap 3 lists.now) }
    ensures refused { IfErr result (IfRefused (BreaksFirst 3 lists.now)) }
{
    drawer.figure(lists)
}
