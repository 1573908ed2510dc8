//! The first dart of a map that passes a test, and the least neighbour of a vertex whose dart does.
ghost use Rattle.std.specs.Prelude.{◌≡◌, ◌+◌, ◌<◌, ◌≤◌, ℕ, List, length, slice_index, Some};
ghost use Rattle.map_theory.specs.Maps.{list_of};
ghost use Rattle.map_lists.specs.declared.ids.DartId.{DartId as TheDart};
ghost use Rattle.half_edges.specs.Map.{IsHalfMap, IsLive, dart_at, first_dart as dart_of_first};
ghost use Rattle.vertex_rounds.specs.Rounds.{IsLeastOf};
ghost use Rattle.vertex_rounds.specs.First.{Passes, Fails, FindsFirst, FindsLeast};

use crate::list_steps::{is_below, later_dart};
use half_edges::{DartId, HalfMap, VertexId};

// Returns the head of `d` if it is less than `best`, the least head so far, and `d` passes `test`, and else `best`.
fn better<F: Fn(DartId) -> bool>(
    map: &HalfMap,
    test: &F,
    d: DartId,
    best: Option<VertexId>,
) -> Option<VertexId>
    requires live { IsLive map.now d.0 }
    requires test { (e : TheDart) → IsLive map.now e.0 → F.pre test.now e }
    ensures { (v u : ℕ) → dart_at map.now d.0 ≡ Some (v, u) → (us : List ℕ) (k : ℕ) → slice_index us k ≡ u
        → IsLeastOf (Passes map.now (F.post test.now) v) (Fails map.now (F.post test.now) v) us k best
        → IsLeastOf (Passes map.now (F.post test.now) v) (Fails map.now (F.post test.now) v) us (k + 1) result }
{
    let u = map.head(d);
    if is_below(u, best) && test(d) {
        Some(u)
    } else {
        best
    }
}

// Returns the least neighbour of `v` whose dart passes the test, or None. `first` is the first dart of its list.
fn least_round<F: Fn(DartId) -> bool>(
    map: &HalfMap,
    test: &F,
    v: VertexId,
    first: DartId,
) -> Option<VertexId>
    requires first { dart_at map.now first.0 ≡ Some (dart_of_first map.now.lists v.0) }
    requires test { (e : TheDart) → IsLive map.now e.0 → F.pre test.now e }
    ensures { FindsLeast map.now (F.post test.now) v.0 result }
{
    let mut best = None;
    let mut d = first;
    'round: loop {
        best = better(map, test, d, best);
        match later_dart(map, d) {
            Some(next) => d = next,
            None => return best,
        }
    }
}

// Returns the least neighbour of `v` whose dart from `v` passes the test, or None where none passes.
fn least_of<F: Fn(DartId) -> bool>(map: &HalfMap, test: &F, v: VertexId) -> Option<VertexId>
    requires vertex { v.0 < length map.now.lists }
    requires test { (e : TheDart) → IsLive map.now e.0 → F.pre test.now e }
    ensures { FindsLeast map.now (F.post test.now) v.0 result }
{
    match map.first_dart(v) {
        Some(first) => least_round(map, test, v, first),
        None => None,
    }
}

/// Returns the least neighbour of `v` whose dart from `v` passes the test, or None where none passes. Only darts to
/// lesser vertices than the least one so far are tested.
pub fn least_head<F: Fn(DartId) -> bool>(map: &HalfMap, v: VertexId, test: F) -> Option<VertexId>
    requires vertex { v.0 < length map.now.lists }
    requires test { (e : TheDart) → IsLive map.now e.0 → F.pre test e }
    ensures { FindsLeast map.now (F.post test) v.0 result }
{
    least_of(map, &test, v)
}

/// Returns the first dart that passes the test, by its tail and then by its head, of those whose tail is `from` or
/// greater. None where none passes.
///
/// Of the darts from one vertex only those are tested whose head is below the least one so far.
pub fn first_dart_from<F: Fn(DartId) -> bool>(
    map: &HalfMap,
    from: u16,
    test: F,
) -> Option<(VertexId, VertexId)>
    requires test { (e : TheDart) → IsLive map.now e.0 → F.pre test e }
    ensures { FindsFirst map.now (F.post test) from result }
{
    for v in from..map.n() {
        if let Some(u) = least_of(map, &test, VertexId(v)) {
            return Some((VertexId(v), u));
        }
    }
    None
}

/// Returns the first dart that passes the test, by its tail and then by its head, or None where none passes.
pub fn first_dart<F: Fn(DartId) -> bool>(map: &HalfMap, test: F) -> Option<(VertexId, VertexId)>
    requires test { (e : TheDart) → IsLive map.now e.0 → F.pre test e }
    ensures { FindsFirst map.now (F.post test) 0 result }
{
    first_dart_from(map, 0, test)
}
