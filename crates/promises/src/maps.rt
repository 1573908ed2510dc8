//! Promised contracts of half-edge maps: what each call reads from the rotations, and what an edit leaves.
ghost use Rattle.std.specs.Prelude.{◌≡◌, ◌+◌, ◌-◌, ◌<◌, ◌≤◌, ◌↔◌, ◌++◌, ◌∷◌, [], length, None, IfOk, IfErr, IsTrue, option_map, Some, IfSome, MatchOption, true, Contains, ◌≢◌, ℕ, max, OnOk, OnErr, Option, min};
ghost use Rattle.half_edges.specs.Edges.{corner_place, IsCorner, with_edge};
ghost use Rattle.half_edges.specs.Induced.{induced_lists};
ghost use Rattle.half_edges.specs.Map.{IsHalfMap, IsLive, dart_at, next_dart, first_dart};
ghost use Rattle.map_theory.specs.Edges.{without_edge};
ghost use Rattle.map_theory.specs.Maps.{vertex_count, edge_count, twin_dart, face_step, list_of, HasDart};
ghost use Rattle.simple_maps.specs.Faults.{first_fault};
ghost use Rattle.simple_maps.specs.MapFault.{Names};

use half_edges::{Corner, HalfMap, MapFault, MapMaker};
use map_lists::{DartId, Ends, Rotations, VertexId};
use std::alloc::{AllocError, Global};

/// Makes the map with these `lists`, or names their first fault.
pub fn from_rotations(alloc: Global, lists: &Rotations) -> Result<HalfMap, MapFault>
    requires some_list { 0 < length lists.now }
    ensures lists { IfOk result (λ map. map.lists ≡ lists.now) }
    ensures spare { IfOk result (λ new. new.spare ≡ 0) }
    ensures simple { IfOk result (λ map. first_fault lists.now ≡ None) }
    ensures fault { IfErr result (Names (first_fault lists.now)) }
    ensures known { IfOk result IsHalfMap }
{
    HalfMap::from_rotations(alloc, lists)
}

/// Counts the vertices of `map`.
pub fn vertices(map: &HalfMap) -> u16
    ensures count { result ≡ vertex_count map.now.lists }
    ensures known { IsHalfMap map.now }
{
    map.n()
}

/// Counts the edges of `map`.
pub fn edges(map: &HalfMap) -> u32
    ensures count { result ≡ edge_count map.now.lists }
    ensures known { IsHalfMap map.now }
{
    map.m()
}

/// Returns for how many more edges `map` has room.
pub fn spare_count(map: &HalfMap) -> u32
    ensures { result ≡ map.now.spare }
{
    map.spare()
}

/// Tells whether `d` is a dart of `map`.
pub fn is_live(map: &HalfMap, d: DartId) -> bool
    ensures { IsTrue result ↔ IsLive map.now d.0 }
{
    map.is_live(d)
}

/// Returns the opposite dart of `d`.
pub fn twin(map: &HalfMap, d: DartId) -> DartId
    requires { IsLive map.now d.0 }
    ensures { dart_at map.now result.0 ≡ option_map twin_dart (dart_at map.now d.0) }
{
    map.twin(d)
}

/// Returns the dart after `d` round its tail.
pub fn next(map: &HalfMap, d: DartId) -> DartId
    requires { IsLive map.now d.0 }
    ensures { dart_at map.now result.0 ≡ option_map (next_dart map.now.lists) (dart_at map.now d.0) }
{
    map.next(d)
}

/// Returns the dart before `d` round its tail.
pub fn prev(map: &HalfMap, d: DartId) -> DartId
    requires { IsLive map.now d.0 }
    ensures live { IsLive map.now result.0 }
    ensures before { option_map (next_dart map.now.lists) (dart_at map.now result.0) ≡ dart_at map.now d.0 }
{
    map.prev(d)
}

/// Returns the dart after `d` along its face.
pub fn next_on_face(map: &HalfMap, d: DartId) -> DartId
    requires { IsLive map.now d.0 }
    ensures { dart_at map.now result.0 ≡ option_map (face_step map.now.lists) (dart_at map.now d.0) }
{
    map.face_step(d)
}

/// Returns the vertex that `d` leaves.
pub fn tail(map: &HalfMap, d: DartId) -> VertexId
    requires { IsLive map.now d.0 }
    ensures { option_map (λ dart. dart.0) (dart_at map.now d.0) ≡ Some result.0 }
{
    map.tail(d)
}

/// Returns the vertex that `d` enters.
pub fn head(map: &HalfMap, d: DartId) -> VertexId
    requires { IsLive map.now d.0 }
    ensures { option_map (λ dart. dart.1) (dart_at map.now d.0) ≡ Some result.0 }
{
    map.head(d)
}

/// Returns the dart of the first entry of the list of `v`, or None where the list is empty.
pub fn first(map: &HalfMap, v: VertexId) -> Option<DartId>
    requires { v.0 < vertex_count map.now.lists }
    ensures dart { MatchOption result (list_of map.now.lists v.0 ≡ [])
        (λ d. dart_at map.now d.0 ≡ Some (first_dart map.now.lists v.0)) }
    ensures not_isolated { IfSome result (λ d. 0 < length (list_of map.now.lists v.0)) }
{
    map.first_dart(v)
}

/// Returns the length of the list of `v`.
pub fn degree(map: &HalfMap, v: VertexId) -> u16
    requires { v.0 < vertex_count map.now.lists }
    ensures { result ≡ length (list_of map.now.lists v.0) }
{
    map.degree(v)
}

/// Returns the dart from `u` to `v`, or None where they are not adjacent.
pub fn dart_between(map: &HalfMap, u: VertexId, v: VertexId) -> Option<DartId>
    requires u_in { u.0 < vertex_count map.now.lists }
    requires v_in { v.0 < vertex_count map.now.lists }
    ensures { MatchOption result (¬ HasDart map.now.lists u.0 v.0)
        (λ d. dart_at map.now d.0 ≡ Some (u.0, v.0)) }
{
    map.dart_of(u, v)
}

/// Appends `list` to rotation `lists`, as that of the vertex after the last.
pub fn push_list(lists: &mut Rotations, list: &[u16]) -> Result<(), AllocError>
    requires { length lists.old < 4095 }
    ensures ok { OnOk result (lists.new ≡ lists.old ++ list.now ∷ []) }
    ensures err { OnErr result (lists.new ≡ lists.old) }
{
    lists.push(list)
}

/// Returns the lists of `map`.
pub fn rotations(map: &HalfMap, alloc: Global) -> Result<Rotations, AllocError>
    ensures { IfOk result (λ lists. lists ≡ map.now.lists) }
{
    map.rotations(alloc)
}

/// Returns a map with the lists of `map`.
pub fn copy(map: &HalfMap, alloc: Global) -> Result<HalfMap, AllocError>
    ensures lists { IfOk result (λ new. new.lists ≡ map.now.lists) }
    ensures spare { IfOk result (λ new. new.spare ≡ 0) }
    ensures known { IfOk result IsHalfMap }
{
    map.copy(alloc)
}

/// Returns the map of the vertices that `keep` marks, renumbered in their order.
pub fn induced(map: &HalfMap, alloc: Global, keep: &[bool]) -> Result<HalfMap, AllocError>
    requires flags { length keep.now ≡ vertex_count map.now.lists }
    requires some { Contains keep.now true }
    ensures lists { IfOk result (λ new. new.lists ≡ induced_lists keep.now map.now.lists) }
    ensures spare { IfOk result (λ new. new.spare ≡ 0) }
    ensures known { IfOk result IsHalfMap }
{
    map.induced(alloc, keep)
}

/// Makes room in `map` for `k` more edges, and leaves its lists and darts as they are.
pub fn reserve_edges(map: &mut HalfMap, k: u32) -> Result<(), AllocError>
    requires few { k ≤ 8388608 }
    ensures spare { OnOk result (map.new.spare ≡ max k map.old.spare) }
    ensures lists { OnOk result (map.new.lists ≡ map.old.lists) }
    ensures ids { OnOk result ((d : ℕ) → dart_at map.new d ≡ dart_at map.old d) }
    ensures err { OnErr result (map.new ≡ map.old) }
    ensures known { OnOk result (IsHalfMap map.new) }
{
    map.reserve_edges(k)
}

/// Adds an edge to `map` at two corners, `at_u` and `at_v`.
pub fn add_edge(map: &mut HalfMap, at_u: Corner, at_v: Corner) -> DartId
    requires spare { 1 ≤ map.old.spare }
    requires corner_u { IsCorner map.old at_u }
    requires corner_v { IsCorner map.old at_v }
    requires two_vertices { (u v : ℕ) (a b : Option ℕ) → corner_place map.old at_u ≡ Some (u, a) → corner_place map.old at_v ≡ Some (v, b)
        → u ≢ v }
    requires not_adjacent { (u v : ℕ) (a b : Option ℕ) → corner_place map.old at_u ≡ Some (u, a) → corner_place map.old at_v ≡ Some (v, b)
        → ¬ HasDart map.old.lists u v }
    ensures lists { (u v : ℕ) (a b : Option ℕ) → corner_place map.old at_u ≡ Some (u, a) → corner_place map.old at_v ≡ Some (v, b)
        → map.new.lists ≡ with_edge map.old.lists u a v b }
    ensures spare { map.new.spare + 1 ≡ map.old.spare }
    ensures dart { (u v : ℕ) (a b : Option ℕ) → corner_place map.old at_u ≡ Some (u, a) → corner_place map.old at_v ≡ Some (v, b)
        → dart_at map.new result.0 ≡ Some (u, v) }
    ensures live { IsLive map.new result.0 }
    ensures ids { (e v u : ℕ) → dart_at map.old e ≡ Some (v, u) → dart_at map.new e ≡ Some (v, u) }
    ensures known { IsHalfMap map.new }
{
    map.add_edge(at_u, at_v)
}

/// Removes the edge of `d` from `map`.
pub fn remove_edge(map: &mut HalfMap, d: DartId) -> Ends
    requires { IsLive map.old d.0 }
    ensures lists { (u v : ℕ) → dart_at map.old d.0 ≡ Some (u, v) → map.new.lists ≡ without_edge map.old.lists u v }
    ensures spare { map.new.spare ≡ map.old.spare + 1 }
    ensures ids { (e v u : ℕ) → HasDart map.new.lists v u → dart_at map.old e ≡ Some (v, u) → dart_at map.new e ≡ Some (v, u) }
    ensures lesser { (u v : ℕ) → dart_at map.old d.0 ≡ Some (u, v) → result.a.0 ≡ min u v }
    ensures greater { (u v : ℕ) → dart_at map.old d.0 ≡ Some (u, v) → result.b.0 ≡ max u v }
    ensures known { IsHalfMap map.new }
{
    map.remove_edge(d)
}

/// Makes the map of `lists` in the memory of `maker`, or names their first fault.
pub fn made_from_rotations(maker: &mut MapMaker, lists: &Rotations) -> Result<HalfMap, MapFault>
    requires some_list { 0 < length lists.now }
    ensures lists { IfOk result (λ map. map.lists ≡ lists.now) }
    ensures spare { IfOk result (λ map. map.spare ≡ 0) }
    ensures simple { IfOk result (λ map. first_fault lists.now ≡ None) }
    ensures fault { IfErr result (Names (first_fault lists.now)) }
    ensures known { IfOk result IsHalfMap }
{
    maker.from_rotations(lists)
}

/// Returns the lists of `map`, in the memory of `spent`.
pub fn read_into(map: &HalfMap, spent: Rotations) -> Result<Rotations, AllocError>
    ensures { IfOk result (λ lists. lists ≡ map.now.lists) }
{
    map.read_into(spent)
}
