//! Promised contracts of convex drawings by face counts, and of convex woods.
ghost use Rattle.std.specs.Prelude.{◌≡◌, ◌<◌, length, IfOk, IfErr, ◌-◌, ℕ, Some, ◌↔◌, None, IfSome, OnOk};
ghost use Rattle.convex_class.specs.Convexity.{BreaksConvex};
ghost use Rattle.convex_draw.specs.Figures.{IsConvexFigure};
ghost use Rattle.convex_draw.specs.Grids.{IsConvexGrid};
ghost use Rattle.convex_draw.specs.RunPoints.{AreRunPoints};
ghost use Rattle.convex_faces.specs.Directions.{IsWoodIn, IsDrawnWood, count_in, root_in, out_in};
ghost use Rattle.convex_laws.specs.Regions.{IsFaceRegion};
ghost use Rattle.convex_peeling.specs.Polyhedral.{IsThreeConnected};
ghost use Rattle.euler_faces.specs.FaceWalks.{AreFaces};
ghost use Rattle.half_edges.specs.Map.{IsLive, dart_at};
ghost use Rattle.map_theory.specs.Maps.{IsPlane, Dart};
ghost use Rattle.refusals.specs.Conditions.{IfRefused};

use convex_class::convex_maps::ConvexMap;
use convex_draw::convex_figures::ConvexDrawer;
use convex_faces::{Axis, ConvexWood};
use half_edges::HalfMap;
use map_lists::{DartId, Rotations, VertexId};
use pg_plane::GridFigure;
use refusals::Unserved;
use std::alloc::{AllocError, Global};

/// Makes the three-connected map of genus zero with these `lists`, or names the first condition that they break.
pub fn convex_map(alloc: Global, lists: &Rotations) -> Result<ConvexMap, Unserved>
    requires some_list { 0 < length lists.now }
    ensures lists { IfOk result (λ found. found.map.lists ≡ lists.now) }
    ensures faces { IfOk result (λ found. AreFaces found.map found.faces) }
    ensures plane { IfOk result (λ found. IsPlane lists.now) }
    ensures served { IfOk result (λ found. IsThreeConnected lists.now) }
    ensures refused { IfErr result (IfRefused (BreaksConvex lists.now)) }
{
    convex_class::convex_maps::convex_map(alloc, lists)
}

/// Draws a three-connected `map` of genus zero over `base`.
pub fn convex_draw(alloc: Global, map: &HalfMap, base: DartId) -> Result<GridFigure, AllocError>
    requires plane { IsPlane map.now.lists }
    requires three { IsThreeConnected map.now.lists }
    requires base { IsLive map.now base.0 }
    ensures points { IfOk result (λ figure. (s d : ℕ) → dart_at map.now base.0 ≡ Some (s, d) → AreRunPoints map.now.lists s d figure.points) }
    ensures grid { IfOk result (λ figure. (s d : ℕ) → dart_at map.now base.0 ≡ Some (s, d) → IsConvexGrid map.now.lists s d figure) }
{
    convex_draw::convex_draw(alloc, map, base)
}

/// Returns a convex wood of `map` over `base`.
pub fn convex_wood(alloc: Global, map: &HalfMap, base: DartId) -> Result<ConvexWood, AllocError>
    requires plane { IsPlane map.now.lists }
    requires three { IsThreeConnected map.now.lists }
    requires base { IsLive map.now base.0 }
    ensures wood { IfOk result (λ wood. (s d : ℕ) → dart_at map.now base.0 ≡ Some (s, d) → IsWoodIn map.now (s, d) wood) }
    ensures drawn { IfOk result (λ wood. (s d : ℕ) → dart_at map.now base.0 ≡ Some (s, d) → IsDrawnWood map.now s d wood) }
{
    convex_faces::convex_wood(alloc, map, base)
}

/// Returns the number of vertices of `wood`.
pub fn wood_size(wood: &ConvexWood) -> u16
    ensures { result ≡ count_in wood.now }
{
    wood.n()
}

/// Returns the root of a convex wood along an axis.
pub fn root(wood: &ConvexWood, axis: Axis) -> VertexId
    ensures { result.0 ≡ root_in wood.now axis }
{
    wood.root(axis)
}

/// Returns the dart of `wood` that leaves `v` along an axis, or None exactly for the root.
pub fn out(wood: &ConvexWood, axis: Axis, v: VertexId) -> Option<DartId>
    requires { v.0 < count_in wood.now }
    ensures root { (result ≡ None) ↔ (v.0 ≡ root_in wood.now axis) }
    ensures dart { IfSome result (λ d. d.0 ≡ out_in wood.now axis v.0) }
{
    wood.out(axis, v)
}

/// Counts the faces in the region of an axis of `v`.
pub fn face_region(
    alloc: Global,
    map: &HalfMap,
    wood: &ConvexWood,
    v: VertexId,
    axis: Axis,
) -> Result<u32, AllocError>
    requires plane { IsPlane map.now.lists }
    requires three { IsThreeConnected map.now.lists }
    requires wood { (base : Dart) × IsWoodIn map.now base wood.now }
    requires vertex { v.0 < length map.now.lists }
    ensures { IfOk result (λ k. (base : Dart) (w : IsWoodIn map.now base wood.now) → IsFaceRegion map.now.lists base (root_in wood.now) w.head axis v.0 k) }
{
    convex_faces::face_region(alloc, map, wood, v, axis)
}

/// Draws the map of `lists` by face counts, or names the first condition that it breaks.
pub fn convex_figure(alloc: Global, lists: &Rotations) -> Result<GridFigure, Unserved>
    requires some_list { 0 < length lists.now }
    ensures figure { IfOk result (IsConvexFigure lists.now) }
    ensures plane { OnOk result (IsPlane lists.now) }
    ensures served { OnOk result (IsThreeConnected lists.now) }
    ensures refused { IfErr result (IfRefused (BreaksConvex lists.now)) }
{
    convex_draw::convex_figures::convex_figure(alloc, lists)
}

/// Draws the map of `lists` by a `drawer` that may have drawn others, or names the first condition that it breaks.
pub fn next_convex_figure(
    drawer: &mut ConvexDrawer,
    lists: &Rotations,
) -> Result<GridFigure, Unserved>
    requires some_list { 0 < length lists.now }
    ensures figure { IfOk result (IsConvexFigure lists.now) }
    ensures plane { OnOk result (IsPlane lists.now) }
    ensures served { OnOk result (IsThreeConnected lists.now) }
    ensures refused { IfErr result (IfRefused (BreaksConvex lists.now)) }
{
    drawer.figure(lists)
}
