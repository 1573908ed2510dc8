//! The call for C that labels the edges of a map as vertical or horizontal, with a direction.
ghost use Rattle.std.specs.Prelude.{◌≡◌, ◌<◌, ◌+◌, ℕ, length, Some, IfOk, IfErr};
ghost use Rattle.map_theory.specs.Maps.{HasDart, dart_count, darts_before, list_of};
ghost use Rattle.half_edges.specs.Map.{IsLive, dart_at};
ghost use Rattle.drawings.specs.Duals.{top_vertex};
ghost use Rattle.rect_class.specs.RectMaps.{IsRectMap};
ghost use Rattle.rect_class.specs.Refusals.{BreaksRect};
ghost use Rattle.pigale_c.specs.Arrays.{lists_in, IsGivenMap};
ghost use Rattle.pigale_c.specs.Failures.{Fails};
ghost use Rattle.pigale_c.specs.Labelled.{AreLabelsTo, AreLabelsWritten, IsGivenLabels, IsLabelledThere, label_number};
ghost use Rattle.pigale_c.specs.Numbers.{Reports, outcome_of};

use crate::map_arrays::{MapArrays, lists_of};
use crate::outcome::{Failure, Numbers, Outcome, report};
use half_edges::{DartId, HalfMap, VertexId};
use map_lists::Rotations;
use rect_class::rect_map;
use rect_dual::{Label, Labelling, edge_labels};
use std::alloc::{AllocError, Global};

// Returns the number of `label`: 0 for an edge of the outer face, 1 and 2 for a vertical edge that leaves or enters, 3 and
// 4 for a horizontal one.
fn number_of(label: Label) -> u8
    ensures { result ≡ label_number label }
{
    match label {
        Label::Frame => 0,
        Label::RiseOut => 1,
        Label::RiseIn => 2,
        Label::RunOut => 3,
        Label::RunIn => 4,
    }
}

// Returns the dart from `v` to `u`, which `map` has. It looks at `hint` first, and else goes over the list of `v`.
fn dart_between(map: &HalfMap, hint: DartId, v: u16, u: u16) -> DartId
    requires live { IsLive map.now hint.0 }
    requires dart { HasDart map.now.lists v u }
    ensures { dart_at map.now result.0 ≡ Some (v, u) }
{
    map.facts();
    if map.tail(hint).0 == v && map.head(hint).0 == u {
        return hint;
    }
    match map.dart_of(VertexId(v), VertexId(u)) {
        Some(d) => d,
        None => unreachable!(),
    }
}

// Appends to `made`, the numbers of the labels of all darts before those from `v`, the numbers of these, whose heads are
// `heads`. It fails only when out of memory.
fn push_numbers(
    made: &mut Vec<u8>,
    map: &HalfMap,
    labels: &Labelling,
    v: u16,
    heads: &[u16],
) -> Result<(), AllocError>
    requires vertex { v < length map.now.lists }
    requires heads { heads.now ≡ list_of map.now.lists v }
    requires covers { (id : ℕ) → IsLive map.now id → id < length labels.now }
    requires so_far { AreLabelsTo map.now labels.now (darts_before map.now.lists v) made.old.items }
    ensures { IfOk result (λ _. AreLabelsTo map.now labels.now (darts_before map.now.lists (v + 1)) made.new.items) }
{
    let Some(first) = map.first_dart(VertexId(v)) else {
        return Ok(());
    };
    let mut hint = first;
    for u in heads {
        let d = dart_between(map, hint, v, *u);
        made.push(number_of(labels.of(d)))?;
        hint = map.next(d);
    }
    Ok(())
}

// Returns the numbers of the labels of all darts of `map`, which has these `lists`, in their order. It fails only when out
// of memory.
fn numbers_of(
    alloc: Global,
    map: &HalfMap,
    labels: &Labelling,
    lists: &Rotations,
) -> Result<Vec<u8>, AllocError>
    requires lists { map.now.lists ≡ lists.now }
    requires covers { (id : ℕ) → IsLive map.now id → id < length labels.now }
    ensures { IfOk result (λ made. AreLabelsTo map.now labels.now (dart_count map.now.lists) made.items) }
{
    let mut made = Vec::with_capacity(alloc, lists.total())?;
    for v in 0..map.n() {
        push_numbers(&mut made, map, labels, v, lists.list(usize::from(v)))?;
    }
    Ok(made)
}

// Returns the dart from vertex 0 to its first neighbour, which it has.
fn base_of(map: &HalfMap) -> DartId
    requires { IsRectMap map.now.lists }
    ensures live { IsLive map.now result.0 }
    ensures first { dart_at map.now result.0 ≡ Some (0, top_vertex map.now.lists) }
{
    match map.first_dart(VertexId(0)) {
        Some(d) => d,
        None => unreachable!(),
    }
}

// Returns the numbers of the labels of all darts of `map`, which has these `lists`, in an edge labelling over vertex 0's
// first dart. It fails only when out of memory.
fn labelling_of(alloc: Global, map: &HalfMap, lists: &Rotations) -> Result<Vec<u8>, AllocError>
    requires lists { map.now.lists ≡ lists.now }
    requires class { IsRectMap map.now.lists }
    ensures { IfOk result (λ made. IsLabelledThere map.now.lists made.items) }
{
    rect_class::biconnected_are_rect_maps();
    let labels = edge_labels(alloc, map, base_of(map))?;
    let made = numbers_of(alloc, map, &labels, lists)?;
    Ok(made)
}

// Returns the map of the lists of `given`, if it is of the class of the job `rect`. `Err` is `BadArgument`, the first
// condition that it breaks, or `NoMemory`.
fn map_of(given: &MapArrays<'_>, lists: &Rotations) -> Result<HalfMap, Failure>
    requires lists { lists.now ≡ lists_in given.now.ends.now given.now.neighbours.now }
    requires some_list { 0 < length lists.now }
    requires given { IsGivenMap given.now.ends.now given.now.neighbours.now }
    ensures lists { IfOk result (λ map. map.lists ≡ lists_in given.now.ends.now given.now.neighbours.now) }
    ensures served { IfOk result (λ map. IsRectMap (lists_in given.now.ends.now given.now.neighbours.now)) }
    ensures failed { IfErr result (Fails (IsGivenMap given.now.ends.now given.now.neighbours.now) (BreaksRect (lists_in given.now.ends.now given.now.neighbours.now))) }
{
    match rect_map(given.alloc, lists) {
        Ok(map) => Ok(map),
        Err(unserved) => Err(Failure::from(unserved)),
    }
}

// Writes the numbers of an edge labelling of the map `given` to `row`. Returns `Served`, or why there is none, and then
// leaves it as it was.
fn labelled(given: &MapArrays<'_>, row: &mut [u8]) -> Result<Outcome, Failure>
    ensures { AreLabelsWritten given.now.ends.now given.now.neighbours.now row.old row.new (outcome_of result) }
{
    let lists = lists_of(given.alloc, given.ends, given.neighbours)?;
    let size = lists.total();
    if row.len() != size {
        return Err(Failure::BadArgument);
    }
    let map = map_of(given, &lists)?;
    let made = labelling_of(given.alloc, &map, &lists)?;
    row.copy_from_slice(&made);
    Ok(Outcome::Served)
}

/// Writes an edge labelling of a map (`neighbours` cut into lists at `ends`) of triangles in a quadrangle to `labels`:
/// for each entry of `neighbours` 0 for an edge of the outer face, 1 for one that leaves upwards, 2 for one that enters
/// from below, 3 for one that leaves to the right, and 4 for one that enters from the left. Returns a status, and writes
/// what it names to `found`.
#[unsafe(no_mangle)]
pub extern "C" fn pigale_edge_labelling(
    alloc: Global,
    ends: &[usize],
    neighbours: &[u16],
    labels: &mut [u8],
    found: &mut Numbers,
) -> u8
    ensures { Reports (AreLabelsWritten ends.now neighbours.now labels.old labels.new) result found.new }
{
    let given = MapArrays {
        alloc,
        ends,
        neighbours,
    };
    report(labelled(&given, labels), found)
}
