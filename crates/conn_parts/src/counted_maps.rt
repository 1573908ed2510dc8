//! A record as a half-edge map with its components and its Euler count, and the refusal of lists by their counts.
ghost use Rattle.std.specs.Prelude.{◌≡◌, ◌<◌, ◌≤◌, length, Some, None, IfOk, IfErr, OnOk};
ghost use Rattle.map_theory.specs.Maps.{IsSimpleMap, IsPlane, darts, vertex_count};
ghost use Rattle.simple_maps.specs.Faults.{first_fault};
ghost use Rattle.simple_maps.specs.MapFault.{Names};
ghost use Rattle.simple_maps.specs.Tables.{AreTwins};
ghost use Rattle.refusals.specs.Conditions.{first_refusal, IfRefused};
ghost use Rattle.conn_parts.specs.Counted.{IsCountOf, IsCountedMap};
ghost use Rattle.conn_parts.specs.Parts.{ArePartsOf};

use crate::Parts;
use crate::component_numbers::numbered_parts;
use euler_faces::{Counter, EulerCount, count_lists, euler_by_twins};
use half_edges::{HalfMap, MapMemory, Rotations};
use refusals::{Refusal, Unserved};
use simple_maps::{MapFault, fill_twins, no_fault_is_simple};
use std::alloc::Global;
use std::mem;

/// A map with its components and its counts. An edit of the map leaves both as they were.
#[derive(Drop)]
pub struct CountedMap {
    /// The map.
    pub map: HalfMap,
    /// Its components.
    pub parts: Parts,
    /// How many vertices, edges, faces and components it has.
    pub count: EulerCount,
}

/// Returns the map with these `lists`, from 1 to 4095 of them, with its components and its counts; or the first fault
/// of the lists. The time is linear in the entries, and so is the memory.
pub fn counted_map(alloc: Global, lists: &Rotations) -> Result<CountedMap, MapFault>
    requires some_list { 0 < length lists.now }
    ensures counted { IfOk result (IsCountedMap lists.now) }
    ensures simple { OnOk result (first_fault lists.now ≡ None) }
    ensures fault { IfErr result (Names (first_fault lists.now)) }
{
    let mut maker = CountedMaker::new(alloc);
    maker.counted_map(lists)
}

/// Makes maps with their counts, one after another, in memory kept from earlier ones.
#[derive(Drop)]
pub struct CountedMaker {
    alloc: Global,
    tails: Vec<u16>,
    twins: Vec<u32>,
    threads: Vec<u32>,
    maps: MapMemory,
    queue: Vec<u16>,
    /// The components of the map that was made last.
    pub parts: Parts,
}

impl CountedMaker {
    /// Returns a maker that has made nothing yet. It takes no memory.
    pub fn new(alloc: Global) -> CountedMaker {
        CountedMaker {
            alloc,
            tails: Vec::new(alloc),
            twins: Vec::new(alloc),
            threads: Vec::new(alloc),
            maps: MapMemory::new(alloc),
            queue: Vec::new(alloc),
            parts: Parts::new(alloc),
        }
    }

    /// Like the function `counted_map`, returns the map with these `lists`, its components and its counts. After
    /// `NoMemory` the maker can still be used.
    pub fn counted_map(&mut self, lists: &Rotations) -> Result<CountedMap, MapFault>
        requires some_list { 0 < length lists.now }
        ensures counted { IfOk result (IsCountedMap lists.now) }
        ensures simple { OnOk result (first_fault lists.now ≡ None) }
        ensures fault { IfErr result (Names (first_fault lists.now)) }
    {
        let map = self.half_map(lists)?;
        let count = euler_by_twins(lists, &mut self.twins, self.parts.count());
        let parts = mem::replace(&mut self.parts, Parts::new(self.alloc));
        Ok(CountedMap { map, parts, count })
    }

    // Returns the map with these `lists` or their first fault; fills `parts` (components) and `twins` (of its darts).
    #[inline(always)]
    fn half_map(&mut self, lists: &Rotations) -> Result<HalfMap, MapFault>
        requires some_list { 0 < length lists.now }
        ensures lists { IfOk result (λ map. map.lists ≡ lists.now) }
        ensures parts { OnOk result (ArePartsOf lists.now self.new.parts) }
        ensures known { OnOk result (IsSimpleMap lists.now) }
        ensures twins { OnOk result (AreTwins (darts lists.now) self.new.twins.items (length (darts lists.now))) }
        ensures simple { OnOk result (first_fault lists.now ≡ None) }
        ensures fault { IfErr result (Names (first_fault lists.now)) }
    {
        fill_twins(
            self.alloc,
            lists,
            &mut self.tails,
            &mut self.twins,
            &mut self.threads,
        )?;
        let map = self.maps.from_twins(lists, &self.tails, &self.twins)?;
        let spent = mem::replace(&mut self.parts, Parts::new(self.alloc));
        let parts = numbered_parts(lists, spent, &mut self.queue)?;
        self.parts = parts;
        Ok(map)
    }

    /// Returns the map of a record with these `lists`, from 1 to 4095 of them, and leaves its components in the field
    /// `parts`. The map has genus zero and at least `least` vertices.
    ///
    /// `Err` names the first condition that the lists break, of these in this order: the four faults of a map, each
    /// with the least vertices; too few vertices; a genus above zero. Or there was not enough memory: after that the
    /// maker can still be used. The time is linear in the entries.
    #[inline(always)]
    pub fn plane_half_map(&mut self, lists: &Rotations, least: u16) -> Result<HalfMap, Unserved>
        requires some_list { 0 < length lists.now }
        ensures lists { IfOk result (λ map. map.lists ≡ lists.now) }
        ensures parts { OnOk result (ArePartsOf lists.now self.new.parts) }
        ensures simple { OnOk result (IsSimpleMap lists.now) }
        ensures some { OnOk result (least ≤ vertex_count lists.now) }
        ensures plane { OnOk result (IsPlane lists.now) }
        ensures served { OnOk result (first_refusal least lists.now ≡ None) }
        ensures refused { IfErr result (IfRefused (λ refusal. first_refusal least lists.now ≡ Some refusal)) }
    {
        refuse_dense(self.alloc, lists, least)?;
        let map = self.half_map(lists)?;
        let count = euler_by_twins(lists, &mut self.twins, self.parts.count());
        refuse_counted(lists, count, least)?;
        Ok(map)
    }

    /// Keeps the memory of `map`, which is no longer needed, for the next one.
    pub fn keep_map(&mut self, map: HalfMap) {
        self.maps.keep(map);
    }
}

// Refuses a simple map of these `lists` by its counts `count`: for fewer than `least` vertices or a genus above zero.
fn refuse_counted(lists: &Rotations, count: EulerCount, least: u16) -> Result<(), Unserved>
    requires simple { first_fault lists.now ≡ None }
    requires count { IsCountOf lists.now count }
    ensures some { OnOk result (least ≤ vertex_count lists.now) }
    ensures plane { OnOk result (IsPlane lists.now) }
    ensures served { OnOk result (first_refusal least lists.now ≡ None) }
    ensures refused { IfErr result (IfRefused (λ refusal. first_refusal least lists.now ≡ Some refusal)) }
{
    if count.n < least as u32 {
        return Err(Unserved::Refused(Refusal::Small(count.n as u16)));
    }
    let genus = count.genus();
    if 0 < genus {
        return Err(Unserved::Refused(Refusal::Genus(genus)));
    }
    Ok(())
}

/// Returns the counts of a record that is a map of genus zero with at least `least` vertices; `lists` are from 1 to
/// 4095. The `counter` may have counted other records before, and no map is made of the lists.
///
/// `Err` is as for `CountedMaker::plane_half_map`. The time is linear in the entries.
pub fn plane_count(
    counter: &mut Counter,
    lists: &Rotations,
    least: u16,
) -> Result<EulerCount, Unserved>
    requires some_list { 0 < length lists.now }
    ensures simple { OnOk result (IsSimpleMap lists.now) }
    ensures some { OnOk result (least ≤ vertex_count lists.now) }
    ensures plane { OnOk result (IsPlane lists.now) }
    ensures count { IfOk result (IsCountOf lists.now) }
    ensures served { OnOk result (first_refusal least lists.now ≡ None) }
    ensures refused { IfErr result (IfRefused (λ refusal. first_refusal least lists.now ≡ Some refusal)) }
{
    no_fault_is_simple();
    let count = counter.count(lists)?;
    refuse_counted(lists, count, least)?;
    Ok(count)
}

// Refuses lists with more entries than a plane map has, by their first fault or their counts, without making a map.
// `Ok` promises nothing of the lists.
fn refuse_dense(alloc: Global, lists: &Rotations, least: u16) -> Result<(), Unserved>
    requires some_list { 0 < length lists.now }
    ensures { IfErr result (IfRefused (λ refusal. first_refusal least lists.now ≡ Some refusal)) }
{
    if lists.total() <= 6 * lists.len() {
        return Ok(());
    }
    let count = count_lists(alloc, lists)?;
    refuse_counted(lists, count, least)
}
