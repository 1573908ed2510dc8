//! Promised contracts of records taken as maps of a class, or their first broken condition.
ghost use Rattle.std.specs.Prelude.{◌≡◌, ◌<◌, ◌≤◌, ◌-◌, length, None, OnOk, IfOk, IfErr, Some};
ghost use Rattle.conn_parts.specs.BiconnectedMaps.{IsBiconnectedMap, BreaksFirst};
ghost use Rattle.conn_parts.specs.Counted.{IsCountOf, IsCountedMap};
ghost use Rattle.conn_parts.specs.Parts.{ArePartsOf};
ghost use Rattle.grid_figures.specs.Orders.{IsDrawingOrder};
ghost use Rattle.map_theory.specs.Maps.{IsPlane, IsSimpleMap, vertex_count, edge_count, face_count, component_count};
ghost use Rattle.refusals.specs.Conditions.{first_refusal, IfRefused};
ghost use Rattle.simple_maps.specs.Faults.{first_fault};
ghost use Rattle.simple_maps.specs.MapFault.{Names};

use conn_parts::{CountedMaker, CountedMap};
use euler_faces::{Counter, EulerCount};
use grid_figures::drawing_orders::DrawingOrder;
use half_edges::{HalfMap, MapFault};
use map_lists::Rotations;
use refusals::Unserved;
use std::alloc::Global;

/// Counts vertices, edges, faces and components of `lists`, or names their first fault.
pub fn count_lists(alloc: Global, lists: &Rotations) -> Result<EulerCount, MapFault>
    requires some_list { 0 < length lists.now }
    ensures n { IfOk result (λ count. count.n ≡ vertex_count lists.now) }
    ensures m { IfOk result (λ count. count.m ≡ edge_count lists.now) }
    ensures f { IfOk result (λ count. count.f ≡ face_count lists.now) }
    ensures c { IfOk result (λ count. count.c ≡ component_count lists.now) }
    ensures simple { OnOk result (first_fault lists.now ≡ None) }
    ensures fault { IfErr result (Names (first_fault lists.now)) }
{
    euler_faces::count_lists(alloc, lists)
}

/// Makes the map of `lists` with its counts, or names their first fault.
pub fn counted_map(alloc: Global, lists: &Rotations) -> Result<CountedMap, MapFault>
    requires some_list { 0 < length lists.now }
    ensures counted { IfOk result (IsCountedMap lists.now) }
    ensures simple { OnOk result (first_fault lists.now ≡ None) }
    ensures fault { IfErr result (Names (first_fault lists.now)) }
{
    conn_parts::counted_map(alloc, lists)
}

/// Makes the biconnected map of genus zero of `lists`, or names the first condition that they break.
pub fn biconnected_map(alloc: Global, lists: &Rotations, least: u16) -> Result<HalfMap, Unserved>
    requires some_list { 0 < length lists.now }
    ensures lists { IfOk result (λ map. map.lists ≡ lists.now) }
    ensures served { IfOk result (λ map. IsBiconnectedMap least lists.now) }
    ensures refused { IfErr result (IfRefused (BreaksFirst least lists.now)) }
{
    conn_parts::biconnected_maps::biconnected_map(alloc, lists, least)
}

/// Returns a completion of the map of `lists` with a canonical order, or names the first condition that they break.
pub fn drawing_order(alloc: Global, lists: &Rotations) -> Result<DrawingOrder, Unserved>
    requires some_list { 0 < length lists.now }
    ensures order { IfOk result (IsDrawingOrder lists.now) }
    ensures served { OnOk result (first_refusal 3 lists.now ≡ None) }
    ensures refused { IfErr result (IfRefused (λ refusal. first_refusal 3 lists.now ≡ Some refusal)) }
{
    grid_figures::drawing_orders::drawing_order(alloc, lists)
}

/// Counts the map of genus zero of `lists` with `least` vertices or more, or names the first condition that they break.
pub fn plane_count(
    counter: &mut Counter,
    lists: &Rotations,
    least: u16,
) -> Result<EulerCount, Unserved>
    requires some_list { 0 < length lists.now }
    ensures simple { OnOk result (IsSimpleMap lists.now) }
    ensures some { OnOk result (least ≤ vertex_count lists.now) }
    ensures plane { OnOk result (IsPlane lists.now) }
    ensures count { IfOk result (IsCountOf lists.now) }
    ensures served { OnOk result (first_refusal least lists.now ≡ None) }
    ensures refused { IfErr result (IfRefused (λ refusal. first_refusal least lists.now ≡ Some refusal)) }
{
    conn_parts::plane_count(counter, lists, least)
}

/// Makes the map of `lists` with its counts in the memory of `maker`, or names their first fault.
pub fn made_counted_map(maker: &mut CountedMaker, lists: &Rotations) -> Result<CountedMap, MapFault>
    requires some_list { 0 < length lists.now }
    ensures counted { IfOk result (IsCountedMap lists.now) }
    ensures simple { OnOk result (first_fault lists.now ≡ None) }
    ensures fault { IfErr result (Names (first_fault lists.now)) }
{
    maker.counted_map(lists)
}

/// Makes the map of genus zero of `lists` in the memory of `maker`, which keeps its components, or names the first
/// condition that they break.
pub fn made_plane_map(
    maker: &mut CountedMaker,
    lists: &Rotations,
    least: u16,
) -> Result<HalfMap, Unserved>
    requires some_list { 0 < length lists.now }
    ensures lists { IfOk result (λ map. map.lists ≡ lists.now) }
    ensures parts { OnOk result (ArePartsOf lists.now maker.new.parts) }
    ensures simple { OnOk result (IsSimpleMap lists.now) }
    ensures some { OnOk result (least ≤ vertex_count lists.now) }
    ensures plane { OnOk result (IsPlane lists.now) }
    ensures served { OnOk result (first_refusal least lists.now ≡ None) }
    ensures refused { IfErr result (IfRefused (λ refusal. first_refusal least lists.now ≡ Some refusal)) }
{
    maker.plane_half_map(lists, least)
}
