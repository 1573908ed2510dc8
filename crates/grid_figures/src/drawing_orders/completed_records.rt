//! The public call `drawing_order`, and the tables that complete and order records one after another.
ghost use Rattle.std.specs.Prelude.{◌≡◌, ◌≤◌, ◌<◌, ℕ, length, if◌then◌else◌, Some, None, IfOk, IfErr, IfSome, IfNone, OnOk};
ghost use Rattle.map_theory.specs.Maps.{IsPlane, vertex_count};
ghost use Rattle.plane_laws.specs.Triangulations.{IsTriangulation};
ghost use Rattle.plane_laws.specs.MapEditsCompleted.{IsExtended};
ghost use Rattle.half_edges.specs.Map.{dart_at};
ghost use Rattle.conn_parts.specs.Parts.{ArePartsOf};
ghost use Rattle.grid_figures.specs.DrawingOrdersBases.{LeadsToLeast};
ghost use Rattle.grid_figures.specs.Orders.{IsDrawingOrder, IsOrdered, lists_by};
ghost use Rattle.refusals.specs.Conditions.{first_refusal, IfRefused};

use crate::record::Record;
use augment_tri::complete_parts;
use canon_order::{Order, Peeler};
use conn_parts::CountedMaker;
use euler_faces::Counter;
use half_edges::{DartId, HalfMap, Rotations, VertexId};
use refusals::Unserved;
use std::alloc::{AllocError, Global};
use std::mem;

/// A triangulation with a canonical order of it.
#[derive(Drop)]
pub struct DrawingOrder {
    /// The map.
    pub tri: HalfMap,
    /// Its lists, where they are not those of the record.
    pub made: Option<Rotations>,
    /// The order of its vertices.
    pub order: Order,
}

// The tables for completing and ordering records, kept from one to the next: their counts, maps, lists and orders.
#[derive(Drop)]
pub(crate) struct Tools {
    pub(crate) alloc: Global,
    pub(crate) counter: Counter,
    pub(crate) maps: CountedMaker,
    // the lists of the triangulation that was completed last
    pub(crate) lists: Rotations,
    pub(crate) peeler: Peeler,
}

// Returns the dart from vertex 0 of the triangulation `tri` to its least neighbour.
fn least_dart(tri: &HalfMap) -> DartId
    requires triangulation { IsTriangulation tri.now.lists }
    ensures { LeadsToLeast tri.now result.0 }
{
    for u in 1..tri.n() {
        if let Some(d) = tri.dart_of(VertexId(u), VertexId(0)) {
            return tri.twin(d);
        }
    }
    unreachable!()
}

// Returns the base dart of the triangulation `tri`: `first`, or for None that from vertex 0 to its least neighbour.
fn base_dart(tri: &HalfMap, first: Option<DartId>) -> DartId
    requires triangulation { IsTriangulation tri.now.lists }
    ensures given { IfSome first (λ d. result ≡ d) }
    ensures least { IfNone first (LeadsToLeast tri.now result.0) }
{
    match first {
        Some(d) => d,
        None => least_dart(tri),
    }
}

impl Tools {
    // Makes tables that have no memory yet.
    pub(crate) fn new(alloc: Global) -> Tools {
        Tools {
            alloc,
            counter: Counter::new(alloc),
            maps: CountedMaker::new(alloc),
            lists: Rotations::new(alloc),
            peeler: Peeler::new(alloc),
        }
    }

    // Completes `map`, of genus zero with at least three vertices, to a triangulation; `self.maps.parts` has its
    // components. Darts keep their ids. Returns whether edges were added; if so `self.lists` are the new lists.
    #[inline(always)]
    fn complete_map(&mut self, map: &mut HalfMap) -> Result<bool, AllocError>
        requires plane { IsPlane map.old.lists }
        requires some { 3 ≤ vertex_count map.old.lists }
        requires parts { ArePartsOf map.old.lists self.old.maps.parts }
        ensures triangulation { OnOk result (IsTriangulation map.new.lists) }
        ensures extended { OnOk result (IsExtended map.old.lists map.new.lists) }
        ensures ids { OnOk result ((d v u : ℕ) → dart_at map.old d ≡ Some (v, u) → dart_at map.new d ≡ Some (v, u)) }
        ensures lists { IfOk result (λ made. lists_by made self.new.lists map.old.lists ≡ map.new.lists) }
    {
        if map.m() == 3 * map.n() as u32 - 6 {
            return Ok(false);
        }
        complete_parts(map, &self.maps.parts)?;
        let spent = mem::replace(&mut self.lists, Rotations::new(self.alloc));
        let lists = map.read_into(spent)?;
        self.lists = lists;
        Ok(true)
    }

    // Completes `map`, whose lists are `lists`, as `complete_map` does and needs. Leaves a canonical order of the
    // completion in `self.peeler.order`. Returns whether edges were added; if so `self.lists` are its lists.
    #[inline(always)]
    fn order_map(&mut self, map: &mut HalfMap, lists: &Rotations) -> Result<bool, AllocError>
        requires lists { map.old.lists ≡ lists.now }
        requires plane { IsPlane lists.now }
        requires some { 3 ≤ vertex_count lists.now }
        requires parts { ArePartsOf lists.now self.old.maps.parts }
        ensures order { OnOk result (IsOrdered lists.now map.new.lists self.new.peeler.order) }
        ensures lists { IfOk result (λ made. lists_by made self.new.lists lists.now ≡ map.new.lists) }
    {
        let first = map.first_dart(VertexId(0));
        let made = self.complete_map(map)?;
        let base = base_dart(map, first);
        let own = made_or(made, &self.lists, lists);
        self.peeler.order_map(self.alloc, map, own, base)?;
        Ok(made)
    }

    // Completes the map of the record `input` and orders it in `self.peeler.order`, or returns the first condition that
    // the record breaks. Returns whether edges were added; if so `self.lists` are those of the completion.
    #[inline(always)]
    pub(crate) fn order_record(&mut self, input: &Record<'_>) -> Result<bool, Unserved>
        ensures order { IfOk result (λ made. IsOrdered input.now.lists.now (lists_by made self.new.lists input.now.lists.now) self.new.peeler.order) }
        ensures served { OnOk result (first_refusal 3 input.now.lists.now ≡ None) }
        ensures refused { IfErr result (IfRefused (λ refusal. first_refusal 3 input.now.lists.now ≡ Some refusal)) }
    {
        let mut map = self.maps.plane_half_map(input.lists, 3)?;
        let made = self.order_map(&mut map, input.lists)?;
        self.maps.keep_map(map);
        Ok(made)
    }

    // Like [`Tools::order_record`], but takes the record's `lists`, at least one, and also returns the completed map.
    fn ordered_map(&mut self, lists: &Rotations) -> Result<(HalfMap, bool), Unserved>
        requires some_list { 0 < length lists.now }
        ensures order { IfOk result (λ p. IsOrdered lists.now p.0.lists self.new.peeler.order) }
        ensures lists { IfOk result (λ p. lists_by p.1 self.new.lists lists.now ≡ p.0.lists) }
        ensures served { OnOk result (first_refusal 3 lists.now ≡ None) }
        ensures refused { IfErr result (IfRefused (λ refusal. first_refusal 3 lists.now ≡ Some refusal)) }
    {
        let mut map = self.maps.plane_half_map(lists, 3)?;
        let made = self.order_map(&mut map, lists)?;
        Ok((map, made))
    }
}

// Returns `lists`, those of a completion, if `made` (edges were added), or else the record's lists, `own`.
pub(crate) fn made_or<'a>(made: bool, lists: &'a Rotations, own: &'a Rotations) -> &'a Rotations
    ensures { result.now ≡ lists_by made lists.now own.now }
{
    if made { lists } else { own }
}

// Returns `lists`, those of a completion, if `made` (edges were added), or else None.
fn some_if(made: bool, lists: Rotations) -> Option<Rotations>
    ensures { result ≡ (if made then Some lists else None) }
{
    if made { Some(lists) } else { None }
}

/// Returns the completion of the map of a record with these `lists`, which are from 1 to 4095, and a canonical order of
/// it. The base of the order goes from vertex 0 to the first of its list, or to its least neighbour in the completion
/// where the list is empty.
///
/// `Err` names the first condition that the lists break, or says that memory ran out. First come the faults of a map
/// (an entry out of range, a loop, a repeat, a one-sided edge), each with the least vertices. Then come fewer than
/// three vertices, and a genus above zero. The time is linear in the entries.
pub fn drawing_order(alloc: Global, lists: &Rotations) -> Result<DrawingOrder, Unserved>
    requires some_list { 0 < length lists.now }
    ensures order { IfOk result (IsDrawingOrder lists.now) }
    ensures served { OnOk result (first_refusal 3 lists.now ≡ None) }
    ensures refused { IfErr result (IfRefused (λ refusal. first_refusal 3 lists.now ≡ Some refusal)) }
{
    let mut tools = Tools::new(alloc);
    match tools.ordered_map(lists) {
        Ok((map, made)) => {
            let read = tools.lists;
            let peeler = tools.peeler;
            Ok(DrawingOrder {
                tri: map,
                made: some_if(made, read),
                order: peeler.order,
            })
        }
        Err(refusal) => {
            drop(tools);
            Err(refusal)
        }
    }
}
