//! Promised contracts of triangulations, canonical orders, rectangular orders and st-numberings.
ghost use Rattle.std.specs.Prelude.{◌≡◌, ◌≤◌, ℕ, Some, OnOk, IfOk, IfErr, ◌<◌, map};
ghost use Rattle.bipolar.specs.DualNumbers.{AreDualNumbers};
ghost use Rattle.canon_order.specs.Orders.{IsCanonicalOrder, vertices_of};
ghost use Rattle.graph_search.specs.Cuts.{IsCutVertex};
ghost use Rattle.half_edges.specs.Map.{IsHalfMap, dart_at, IsLive};
ghost use Rattle.map_gen.specs.Stacked.{stacked as stacked_lists};
ghost use Rattle.map_lists.specs.Lists.{Lists};
ghost use Rattle.map_theory.specs.Maps.{HasDart, IsPlane, vertex_count, component_count};
ghost use Rattle.plane_laws.specs.MapEditsCompleted.{IsExtended};
ghost use Rattle.plane_laws.specs.Triangulations.{IsTriangulation};
ghost use Rattle.rect_orders.specs.Contours.{IsClosedOf};
ghost use Rattle.rect_orders.specs.Orders.{IsRectOrder};
ghost use Rattle.st_orders.specs.StOrders.{IsStOrderOf};

use canon_order::{Order, OrderFault, Peeler};
use half_edges::HalfMap;
use map_lists::{Counts, DartId, Rotations};
use rect_orders::rect_order::Frame;
use st_orders::StOrder;
use std::alloc::{AllocError, Global};

/// Adds edges to `map` until all faces are triangles, and keeps its rotations.
pub fn triangulate(alloc: Global, map: HalfMap) -> Result<HalfMap, (HalfMap, AllocError)>
    requires plane { IsPlane map.lists }
    requires some { 3 ≤ vertex_count map.lists }
    ensures triangulation { IfOk result (λ new. IsTriangulation new.lists) }
    ensures extended { IfOk result (λ new. IsExtended map.lists new.lists) }
    ensures ids { IfOk result (λ new. (d v u : ℕ) → dart_at map d ≡ Some (v, u) → dart_at new d ≡ Some (v, u)) }
    ensures known { IfOk result IsHalfMap }
    ensures err { IfErr result (λ e. e.0 ≡ map) }
{
    augment_tri::triangulate(alloc, map)
}

/// Returns a canonical order of `tri` for `base`.
pub fn canon_order(alloc: Global, tri: &HalfMap, base: DartId) -> Result<Order, OrderFault>
    requires triangulation { IsTriangulation tri.now.lists }
    requires live { IsLive tri.now base.0 }
    ensures order { IfOk result (λ order. (t s : ℕ) → dart_at tri.now base.0 ≡ Some (t, s) → IsCanonicalOrder tri.now.lists (t, s) (vertices_of order)) }
{
    canon_order::canon_order(alloc, tri, base)
}

/// Returns an st-order of `map` for `st`.
pub fn st_order(alloc: Global, map: &HalfMap, st: DartId) -> Result<StOrder, AllocError>
    requires connected { component_count map.now.lists ≡ 1 }
    requires uncut { (v : ℕ) → ¬ IsCutVertex map.now.lists v }
    requires live { IsLive map.now st.0 }
    ensures { IfOk result (λ order. (s t : ℕ) → dart_at map.now st.0 ≡ Some (s, t) → IsStOrderOf map.now.lists s t order) }
{
    st_orders::st_order(alloc, map, st)
}

/// Returns the longest-path numbers of the dual of `map` along `order`, edge by edge.
pub fn dual_numbers(
    alloc: Global,
    map: &HalfMap,
    order: &StOrder,
    st: DartId,
) -> Result<Counts, AllocError>
    requires live { IsLive map.now st.0 }
    requires plane { IsPlane map.now.lists }
    requires connected { component_count map.now.lists ≡ 1 }
    requires order { (s t : ℕ) → dart_at map.now st.0 ≡ Some (s, t) → IsStOrderOf map.now.lists s t order.now }
    ensures { IfOk result (λ columns. (s t : ℕ) → dart_at map.now st.0 ≡ Some (s, t) → AreDualNumbers map.now.lists order.now.rank s t columns) }
{
    bipolar::dual_orders::dual_numbers(alloc, map, order, st)
}

/// Returns a rectangular order of the map whose lists with an edge added between top and bottom are `more`.
pub fn rect_order(alloc: Global, more: &Rotations, frame: Frame) -> Result<Order, AllocError>
    requires class { (map : Lists) × IsClosedOf more.now map frame.left.0 frame.top.0 frame.right.0 frame.bottom.0 frame.inner.0 }
    ensures order { IfOk result (λ order. (map : Lists) → IsClosedOf more.now map frame.left.0 frame.top.0 frame.right.0 frame.bottom.0 frame.inner.0
        → IsRectOrder map frame.left.0 frame.top.0 frame.right.0 frame.bottom.0 (vertices_of order)) }
{
    rect_orders::rect_order::rect_order(alloc, more, frame)
}

/// Returns the stacked triangulation of `n` vertices with this `number`.
pub fn stacked(alloc: Global, n: u16, number: u32) -> Result<Rotations, AllocError>
    requires some { 3 ≤ n }
    requires few { n < 4096 }
    ensures { IfOk result (λ lists. lists ≡ stacked_lists n number) }
{
    map_gen::stacked(alloc, n, number)
}

/// Orders `tri` for `base`, by its lists and in the memory of `peeler`, which keeps the order.
pub fn peeled_map(
    peeler: &mut Peeler,
    alloc: Global,
    tri: &HalfMap,
    lists: &Rotations,
    base: DartId,
) -> Result<(), AllocError>
    requires triangulation { IsTriangulation tri.now.lists }
    requires lists { lists.now ≡ tri.now.lists }
    requires live { IsLive tri.now base.0 }
    ensures order { OnOk result ((t s : ℕ) → dart_at tri.now base.0 ≡ Some (t, s) → IsCanonicalOrder tri.now.lists (t, s) (vertices_of peeler.new.order)) }
{
    peeler.order_map(alloc, tri, lists, base)
}

/// Orders the triangulation with these `lists` for the base from `t` to `s`, in the memory of `peeler`, which keeps the
/// order.
pub fn peeled_lists(
    peeler: &mut Peeler,
    alloc: Global,
    lists: &Rotations,
    t: u16,
    s: u16,
) -> Result<(), AllocError>
    requires triangulation { IsTriangulation lists.now }
    requires base { HasDart lists.now t s }
    ensures order { OnOk result (IsCanonicalOrder lists.now (t, s) (vertices_of peeler.new.order)) }
{
    peeler.order_lists(alloc, lists, t, s)
}
