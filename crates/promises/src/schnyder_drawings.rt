//! Promised contracts of Schnyder's woods and drawings.
ghost use Rattle.std.specs.Prelude.{◌≡◌, ◌<◌, ◌-◌, ℕ, slice_index, IfOk, ◌↔◌, None, IfSome, pos, length, Some, IfErr, OnOk};
ghost use Rattle.canon_order.specs.Orders.{IsCanonicalOrder, vertices_of};
ghost use Rattle.contour_runs.specs.Runs.{Step};
ghost use Rattle.grid_figures.specs.SchnyderFiguresFigures.{IsSchnyderFigure};
ghost use Rattle.map_theory.specs.Maps.{Dart, vertex_count, HasDart};
ghost use Rattle.order_drawings.specs.OrderRuns.{IsOrderRun};
ghost use Rattle.order_drawings.specs.SchnyderDrawings.{IsSchnyderDrawing, IsSchnyderOf};
ghost use Rattle.plane_laws.specs.Triangulations.{IsTriangulation};
ghost use Rattle.refusals.specs.Conditions.{first_refusal, IfRefused};
ghost use Rattle.schnyder_wood.specs.Parents.{parent_in, IsWoodOf, count_in, kind, root_in, IsRoot, IsInnerIn, IsPathLength};
ghost use Rattle.wood_laws.specs.Arranged.{IsArranged};
ghost use Rattle.wood_laws.specs.Regions.{IsRegionCount};
ghost use Rattle.wood_laws.specs.WoodRegionsLaws.{StandsAtCoordinates};
ghost use Rattle.wood_laws.specs.Woods.{AreParentsOf, IsInner};

use canon_order::Order;
use grid_figures::Drawer;
use grid_figures::schnyder_grid::WoodDrawer;
use half_edges::HalfMap;
use map_lists::{Rotations, VertexId};
use pg_plane::GridFigure;
use refusals::Unserved;
use schnyder_grid::SchnyderFault;
use schnyder_wood::{Colour, Wood};
use std::alloc::{AllocError, Global};

/// Returns the wood of `order`.
pub fn wood(alloc: Global, tri: &HalfMap, order: &Order) -> Result<Wood, AllocError>
    requires triangulation { IsTriangulation tri.now.lists }
    requires order { (base : Dart) × IsCanonicalOrder tri.now.lists base (vertices_of order.now) }
    ensures root_one { IfOk result (λ wood. wood.root_one ≡ slice_index (vertices_of order.now) 0) }
    ensures root_two { IfOk result (λ wood. wood.root_two ≡ slice_index (vertices_of order.now) 1) }
    ensures root_three { IfOk result (λ wood. wood.root_three ≡ slice_index (vertices_of order.now) (vertex_count tri.now.lists - 1)) }
    ensures wood { IfOk result (λ wood. (base : Dart) → IsCanonicalOrder tri.now.lists base (vertices_of order.now) → IsWoodOf tri.now.lists base wood) }
    ensures parents { IfOk result (λ wood. (base : Dart) (canonical : IsCanonicalOrder tri.now.lists base (vertices_of order.now)) (steps : ℕ → Step)
        → IsOrderRun tri.now.lists base (vertices_of order.now) canonical.cycle steps → AreParentsOf (vertices_of order.now) steps (parent_in wood)) }
{
    schnyder_wood::wood(alloc, tri, order)
}

/// Returns the number of vertices of `wood`.
pub fn wood_size(wood: &Wood) -> u16
    ensures { result ≡ count_in wood.now }
{
    wood.n()
}

/// Returns the root of a Schnyder wood in a colour.
pub fn root(wood: &Wood, colour: Colour) -> VertexId
    ensures { result.0 ≡ root_in wood.now (kind colour) }
{
    wood.root(colour)
}

/// Returns the parent of `v` in a colour of `wood`, or None exactly for a root.
pub fn parent(wood: &Wood, colour: Colour, v: VertexId) -> Option<VertexId>
    requires { v.0 < count_in wood.now }
    ensures root { (result ≡ None) ↔ IsRoot wood.now v.0 }
    ensures parent { IfSome result (λ u. u.0 ≡ parent_in wood.now (kind colour) v.0) }
{
    wood.parent(colour, v)
}

/// Counts the vertices on the path of a colour from `v` to the root.
pub fn path_len(wood: &Wood, v: VertexId, colour: Colour) -> u32
    requires inner { IsInnerIn wood.now v.0 }
    ensures { IsPathLength wood.now (kind colour) v.0 result }
{
    schnyder_wood::path_len(wood, v, colour)
}

/// Counts the vertices in the region of a colour of `v`.
pub fn region_count(
    alloc: Global,
    tri: &HalfMap,
    wood: &Wood,
    v: VertexId,
    colour: Colour,
) -> Result<u32, AllocError>
    requires wood { (base : Dart) × HasDart tri.now.lists base.0 base.1 × IsWoodOf tri.now.lists base wood.now }
    requires inner { IsInnerIn wood.now v.0 }
    ensures { IfOk result (λ k. (base : Dart) → IsWoodOf tri.now.lists base wood.now → IsRegionCount tri.now.lists base (parent_in wood.now) (kind colour) v.0 k) }
{
    schnyder_wood::region_count(alloc, tri, wood, v, colour)
}

/// Draws `tri` by Schnyder's coordinates over `order`.
pub fn wood_draw(alloc: Global, tri: &HalfMap, order: &Order) -> Result<GridFigure, AllocError>
    requires triangulation { IsTriangulation tri.now.lists }
    requires order { (base : Dart) × IsCanonicalOrder tri.now.lists base (vertices_of order.now) }
    ensures { IfOk result (IsSchnyderOf tri.now.lists (vertices_of order.now)) }
{
    grid_figures::schnyder_grid::wood_draw(alloc, tri, order)
}

/// Returns an order of the vertices as `wood` has them.
pub fn wood_order(alloc: Global, tri: &HalfMap, wood: &Wood) -> Result<Order, AllocError>
    requires triangulation { IsTriangulation tri.now.lists }
    requires wood { (base : Dart) × HasDart tri.now.lists base.0 base.1 × IsWoodOf tri.now.lists base wood.now }
    ensures arranged { IfOk result (λ order. (base : Dart) → HasDart tri.now.lists base.0 base.1 → IsWoodOf tri.now.lists base wood.now → IsArranged tri.now.lists base (parent_in wood.now) (vertices_of order)) }
{
    schnyder_grid::wood_order(alloc, tri, wood)
}

/// Draws `tri` by the regions of `wood`.
pub fn schnyder_draw(alloc: Global, tri: &HalfMap, wood: &Wood) -> Result<GridFigure, SchnyderFault>
    requires triangulation { IsTriangulation tri.now.lists }
    requires wood { (base : Dart) × HasDart tri.now.lists base.0 base.1 × IsWoodOf tri.now.lists base wood.now }
    ensures coordinates { IfOk result (λ figure. (base : Dart) (v : ℕ) → HasDart tri.now.lists base.0 base.1 → IsWoodOf tri.now.lists base wood.now → IsInner tri.now.lists base v
        → StandsAtCoordinates tri.now.lists base (parent_in wood.now) figure.points v) }
    ensures drawing { IfOk result (λ figure. (base : Dart) → HasDart tri.now.lists base.0 base.1 → IsWoodOf tri.now.lists base wood.now → IsSchnyderDrawing tri.now.lists base figure.points) }
    ensures width { IfOk result (λ figure. figure.width ≡ pos (vertex_count tri.now.lists - 2)) }
    ensures height { IfOk result (λ figure. figure.height ≡ pos (vertex_count tri.now.lists - 2)) }
{
    schnyder_grid::schnyder_draw(alloc, tri, wood)
}

/// Draws the map of `lists` by Schnyder's coordinates, or names the first condition that it breaks.
pub fn schnyder_figure(alloc: Global, lists: &Rotations) -> Result<GridFigure, Unserved>
    requires some_list { 0 < length lists.now }
    ensures figure { IfOk result (IsSchnyderFigure lists.now) }
    ensures served { OnOk result (first_refusal 3 lists.now ≡ None) }
    ensures refused { IfErr result (IfRefused (λ refusal. first_refusal 3 lists.now ≡ Some refusal)) }
{
    grid_figures::schnyder_figures::schnyder_figure(alloc, lists)
}

/// Draws the triangulation with these `lists` over `order`, in the memory of `woods`.
pub fn wood_list_draw(
    woods: &mut WoodDrawer,
    lists: &Rotations,
    order: &Order,
) -> Result<GridFigure, AllocError>
    requires triangulation { IsTriangulation lists.now }
    requires order { (base : Dart) × IsCanonicalOrder lists.now base (vertices_of order.now) }
    ensures { IfOk result (IsSchnyderOf lists.now (vertices_of order.now)) }
{
    woods.list_draw(lists, order)
}

/// Draws the map of `lists` by Schnyder's coordinates, in the memory of `drawer`.
pub fn drawn_schnyder_figure(drawer: &mut Drawer, lists: &Rotations) -> Result<GridFigure, Unserved>
    requires some_list { 0 < length lists.now }
    ensures figure { IfOk result (IsSchnyderFigure lists.now) }
    ensures served { OnOk result (first_refusal 3 lists.now ≡ None) }
    ensures refused { IfErr result (IfRefused (λ refusal. first_refusal 3 lists.now ≡ Some refusal)) }
{
    drawer.schnyder_figure(lists)
}
