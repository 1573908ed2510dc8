//! The half-edge map `HalfMap`: how rotation lists make it, what it answers of its darts, and memory kept between maps.
ghost use Rattle.std.specs.Prelude.{◌≡◌, ◌+◌, ◌-◌, ◌<◌, ◌≤◌, ◌==◌, nat_lt, if◌then◌else◌, ◌↔◌, ℕ, List, [], length, slice_index, Some, None, IsTrue, IfOk, IfErr, IfSome, MatchOption, option_map};
ghost use Rattle.map_theory.specs.Maps.{HasDart, list_of, vertex_count, edge_count, face_step, twin_dart};
ghost use Rattle.simple_maps.specs.Faults.{first_fault};
ghost use Rattle.half_edges.specs.MapFacts.{AreMapFacts-prop};
ghost use Rattle.half_edges.specs.Arena.{arena_lists, arena_ids};
ghost use Rattle.half_edges.specs.Map.{AreMapFacts, IsHalfMap, IsLive, dart_at, first_dart, next_dart};
ghost use Rattle.simple_maps.specs.MapFault.{Names};
ghost use Rattle.simple_maps.specs.Tables.{AreSlots};

use crate::dart_records::{DartRecord, VertexRecord, dart_to, link_darts, push_heads};
use map_lists::{DartId, Rotations, VertexId};
use simple_maps::{MapFault, fill_twins, put_slots};
use std::alloc::{AllocError, Global};
use std::marker::Model;
use std::mem;

/// A simple map as half-edges.
///
/// Its vertices have the numbers below `n`, and each of its darts has one id, which it keeps as long as it
/// is there. Every call takes constant time, but for those that make a map or lists, `reserve_edges`, and
/// `dart_of`, which goes over one list.
#[derive(Drop)]
pub struct HalfMap {
    pub(crate) darts: Vec<DartRecord>,
    pub(crate) vertices: Vec<VertexRecord>,
    // how many edges there are
    pub(crate) edges: u32,
    // a dart of the first free edge, where there is one
    pub(crate) free: u32,
    // how many edges are free
    pub(crate) spare: u32,
    pub(crate) ghost known: { AreMapFacts (arena_lists darts.items vertices.items) spare (arena_ids darts.items) } by { AreMapFacts-prop (arena_lists darts.items vertices.items) spare (arena_ids darts.items) },
}

impl Model for HalfMap {
    ghost use Rattle.half_edges.specs.Map.{Map};
    ghost use Rattle.half_edges.specs.MapFacts.{Map-coded};
    ghost use Rattle.half_edges.specs.Arena.{IsArena, arena_lists, arena_map};

    ghost Value = { Map };

    ghost view = { λ m. arena_map m.darts.items m.vertices.items m.spare m.known };

    ghost coded = { Map-coded };

    ghost invariant = { λ m. IsArena (arena_lists m.darts.items m.vertices.items) m.darts.items m.vertices.items m.edges m.free m.spare };
}

/// The memory of maps that are no longer needed, in which others are made.
#[derive(Drop)]
pub struct MapMemory {
    alloc: Global,
    darts: Vec<DartRecord>,
    vertices: Vec<VertexRecord>,
}

impl MapMemory {
    /// Returns memory that holds nothing yet.
    pub fn new(alloc: Global) -> MapMemory {
        MapMemory {
            alloc,
            darts: Vec::new(alloc),
            vertices: Vec::new(alloc),
        }
    }

    /// Returns the half-edge map of `lists`, which are a simple map, in this memory. `tails` and `twins` have for each
    /// dart, in list order, its tail and the index of its twin. It fails only when out of memory.
    #[inline(always)]
    pub fn from_twins(
        &mut self,
        lists: &Rotations,
        tails: &[u16],
        twins: &[u32],
    ) -> Result<HalfMap, AllocError>
        requires slots { AreSlots lists.now tails.now twins.now }
        requires count { length tails.now ≡ length twins.now }
        ensures lists { IfOk result (λ map. map.lists ≡ lists.now) }
        ensures spare { IfOk result (λ map. map.spare ≡ 0) }
        ensures known { IfOk result IsHalfMap }
    {
        put_slots(lists, tails, twins, &mut self.darts)?;
        link_darts(lists, &mut self.darts, &mut self.vertices)?;
        let edges = (self.darts.len() / 2) as u32;
        let darts = mem::replace(&mut self.darts, Vec::new(self.alloc));
        let vertices = mem::replace(&mut self.vertices, Vec::new(self.alloc));
        Ok(HalfMap {
            darts,
            vertices,
            edges,
            free: 0,
            spare: 0,
        })
    }

    /// Keeps the memory of the half-edge map `map`, which is no longer needed, for the next one that is made.
    pub fn keep(&mut self, map: HalfMap) {
        self.darts = map.darts;
        self.vertices = map.vertices;
    }
}

/// Makes maps, one after another, in the memory of maps that are no longer needed.
#[derive(Drop)]
pub struct MapMaker {
    alloc: Global,
    tails: Vec<u16>,
    twins: Vec<u32>,
    threads: Vec<u32>,
    memory: MapMemory,
}

impl MapMaker {
    /// Returns a maker that has made nothing yet. It takes no memory.
    pub fn new(alloc: Global) -> MapMaker {
        MapMaker {
            alloc,
            tails: Vec::new(alloc),
            twins: Vec::new(alloc),
            threads: Vec::new(alloc),
            memory: MapMemory::new(alloc),
        }
    }

    /// Returns the half-edge map of `lists`, or their first fault, like [`HalfMap::from_rotations`], but in the memory
    /// of maps that `keep` took over. After `NoMemory` the maker can be used again.
    pub fn from_rotations(&mut self, lists: &Rotations) -> Result<HalfMap, MapFault>
        requires some_list { 0 < length lists.now }
        ensures lists { IfOk result (λ map. map.lists ≡ lists.now) }
        ensures spare { IfOk result (λ map. map.spare ≡ 0) }
        ensures simple { IfOk result (λ map. first_fault lists.now ≡ None) }
        ensures fault { IfErr result (Names (first_fault lists.now)) }
        ensures known { IfOk result IsHalfMap }
    {
        fill_twins(
            self.alloc,
            lists,
            &mut self.tails,
            &mut self.twins,
            &mut self.threads,
        )?;
        let map = self.memory.from_twins(lists, &self.tails, &self.twins)?;
        Ok(map)
    }

    /// Keeps the memory of the half-edge map `map`, which is no longer needed, for the next one that is made.
    pub fn keep(&mut self, map: HalfMap) {
        self.memory.keep(map);
    }
}

impl HalfMap {
    /// Returns the half-edge map of `lists`, which are from 1 to 4095, or their first fault.
    ///
    /// Its `spare` is 0. Time and memory are linear in the entries: 16 bytes for a dart, and six more while it is made.
    pub fn from_rotations(alloc: Global, lists: &Rotations) -> Result<HalfMap, MapFault>
        requires some_list { 0 < length lists.now }
        ensures lists { IfOk result (λ map. map.lists ≡ lists.now) }
        ensures spare { IfOk result (λ map. map.spare ≡ 0) }
        ensures simple { IfOk result (λ map. first_fault lists.now ≡ None) }
        ensures fault { IfErr result (Names (first_fault lists.now)) }
        ensures known { IfOk result IsHalfMap }
    {
        let mut maker = MapMaker::new(alloc);
        maker.from_rotations(lists)
    }

    /// Does nothing. By its contract a proof learns what holds of every half-edge map.
    pub fn facts(&self)
        ensures { IsHalfMap self.now }
    {
        let _darts = &self.darts;
    }

    /// Returns the number of vertices.
    pub fn n(&self) -> u16
        ensures count { result ≡ vertex_count self.now.lists }
        ensures known { IsHalfMap self.now }
    {
        self.vertices.len() as u16
    }

    /// Returns the number of edges.
    pub fn m(&self) -> u32
        ensures count { result ≡ edge_count self.now.lists }
        ensures known { IsHalfMap self.now }
    {
        self.edges
    }

    /// Returns how many edges can be added without taking memory.
    pub fn spare(&self) -> u32
        ensures { result ≡ self.now.spare }
    {
        self.spare
    }

    /// Says whether a dart of the map has the id `d`.
    pub fn is_live(&self, d: DartId) -> bool
        ensures { IsTrue result ↔ IsLive self.now d.0 }
    {
        (d.0 as usize) < self.darts.len() && self.darts[d.0 as usize].live
    }

    /// Returns the other dart of the edge of `d`.
    pub fn twin(&self, d: DartId) -> DartId
        requires { IsLive self.now d.0 }
        ensures { dart_at self.now result.0 ≡ option_map twin_dart (dart_at self.now d.0) }
    {
        DartId(self.darts[d.0 as usize].twin)
    }

    /// Returns the dart after `d` clockwise round its tail.
    pub fn next(&self, d: DartId) -> DartId
        requires { IsLive self.now d.0 }
        ensures { dart_at self.now result.0 ≡ option_map (next_dart self.now.lists) (dart_at self.now d.0) }
    {
        DartId(self.darts[d.0 as usize].next)
    }

    /// Returns the dart before `d` clockwise round its tail.
    pub fn prev(&self, d: DartId) -> DartId
        requires { IsLive self.now d.0 }
        ensures live { IsLive self.now result.0 }
        ensures before { option_map (next_dart self.now.lists) (dart_at self.now result.0) ≡ dart_at self.now d.0 }
    {
        DartId(self.darts[d.0 as usize].prev)
    }

    /// Returns the next dart along the face on the left of `d`: the clockwise next of its twin.
    pub fn face_step(&self, d: DartId) -> DartId
        requires { IsLive self.now d.0 }
        ensures { dart_at self.now result.0 ≡ option_map (face_step self.now.lists) (dart_at self.now d.0) }
    {
        let twin = self.twin(d);
        self.next(twin)
    }

    /// Returns the vertex that `d` leaves.
    pub fn tail(&self, d: DartId) -> VertexId
        requires { IsLive self.now d.0 }
        ensures { option_map (λ dart. dart.0) (dart_at self.now d.0) ≡ Some result.0 }
    {
        VertexId(self.darts[d.0 as usize].tail)
    }

    /// Returns the vertex to which `d` leads.
    pub fn head(&self, d: DartId) -> VertexId
        requires { IsLive self.now d.0 }
        ensures { option_map (λ dart. dart.1) (dart_at self.now d.0) ≡ Some result.0 }
    {
        let twin = self.darts[d.0 as usize].twin;
        VertexId(self.darts[twin as usize].tail)
    }

    /// Returns the dart to the first entry of the list of `v`, or None exactly where the list is empty.
    pub fn first_dart(&self, v: VertexId) -> Option<DartId>
        requires { v.0 < vertex_count self.now.lists }
        ensures dart { MatchOption result (list_of self.now.lists v.0 ≡ [])
            (λ d. dart_at self.now d.0 ≡ Some (first_dart self.now.lists v.0)) }
        ensures not_isolated { IfSome result (λ d. 0 < length (list_of self.now.lists v.0)) }
    {
        let vertex = self.vertices[v.0 as usize];
        if vertex.degree == 0 {
            None
        } else {
            Some(DartId(vertex.first))
        }
    }

    /// Returns the number of neighbours of `v`.
    pub fn degree(&self, v: VertexId) -> u16
        requires { v.0 < vertex_count self.now.lists }
        ensures { result ≡ length (list_of self.now.lists v.0) }
    {
        self.vertices[v.0 as usize].degree
    }

    /// Returns the dart from `u` to `v`, or None exactly where they are not adjacent. It goes over the list of `u`.
    pub fn dart_of(&self, u: VertexId, v: VertexId) -> Option<DartId>
        requires u_in { u.0 < vertex_count self.now.lists }
        requires v_in { v.0 < vertex_count self.now.lists }
        ensures { MatchOption result (¬ HasDart self.now.lists u.0 v.0)
            (λ d. dart_at self.now d.0 ≡ Some (u.0, v.0)) }
    {
        let vertex = self.vertices[u.0 as usize];
        match dart_to(&self.darts, vertex.first, vertex.degree, v.0) {
            Some(d) => Some(DartId(d)),
            None => None,
        }
    }

    /// Returns the rotation lists, each from the vertex's first dart. It fails only when out of memory.
    pub fn rotations(&self, alloc: Global) -> Result<Rotations, AllocError>
        ensures { IfOk result (λ lists. lists ≡ self.now.lists) }
    {
        let lists = self.read_into(Rotations::new(alloc))?;
        Ok(lists)
    }

    /// Returns the rotation lists, like `rotations`, but in the memory of `spent`, lists that are no longer needed.
    #[inline(always)]
    pub fn read_into(&self, spent: Rotations) -> Result<Rotations, AllocError>
        ensures { IfOk result (λ lists. lists ≡ self.now.lists) }
    {
        let (mut entries, mut ends) = spent.into_parts();
        entries.clear();
        entries.reserve(2 * self.edges as usize)?;
        ends.clear();
        ends.reserve(self.vertices.len())?;
        for vertex in &self.vertices {
            push_heads(&mut entries, &self.darts, vertex.first, vertex.degree);
            ends.push_reserved(entries.len());
        }
        Ok(Rotations::from_parts(entries, ends))
    }
}
