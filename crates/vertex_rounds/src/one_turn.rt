//! Whether exactly one dart of a vertex passes a test: whether a list goes once round in some order.
ghost use Rattle.std.specs.Prelude.{◌≡◌, ◌<◌, ◌||◌, length, Some};
ghost use Rattle.map_lists.specs.declared.ids.DartId.{DartId as TheDart};
ghost use Rattle.half_edges.specs.Map.{IsHalfMap, IsLive, dart_at, first_dart as dart_of_first};
ghost use Rattle.vertex_rounds.specs.First.{IsPassedOnce, TurnsOnce};

use crate::list_steps::later_dart;
use half_edges::{DartId, HalfMap, VertexId};

// Says whether `a` or `b` holds.
fn either(a: bool, b: bool) -> bool
    ensures { result ≡ (a || b) }
{
    a || b
}

// Says whether exactly one dart from `v` passes the test. `first` is the dart to the first entry of its list.
fn passes_once<F: Fn(DartId) -> bool>(map: &HalfMap, test: &F, v: VertexId, first: DartId) -> bool
    requires first { dart_at map.now first.0 ≡ Some (dart_of_first map.now.lists v.0) }
    requires test { (e : TheDart) → IsLive map.now e.0 → F.pre test.now e }
    ensures { IsPassedOnce map.now (F.post test.now) v.0 result }
{
    let mut passed = false;
    let mut d = first;
    'round: loop {
        let passes = test(d);
        if passed && passes {
            return false;
        }
        passed = either(passed, passes);
        match later_dart(map, d) {
            Some(next) => d = next,
            None => return passed,
        }
    }
}

// Says whether exactly one dart from `v` passes the test, or `v` has only the dart `first`.
fn turns_round<F: Fn(DartId) -> bool>(map: &HalfMap, test: &F, v: VertexId, first: DartId) -> bool
    requires first { dart_at map.now first.0 ≡ Some (dart_of_first map.now.lists v.0) }
    requires test { (e : TheDart) → IsLive map.now e.0 → F.pre test.now e }
    ensures { TurnsOnce map.now (F.post test.now) v.0 result }
{
    match later_dart(map, first) {
        Some(_) => passes_once(map, test, v, first),
        None => true,
    }
}

/// Says whether exactly one dart from `v` passes the test, or `v` has fewer than two neighbours.
///
/// Let the test say that an entry of the list of `v` does not come before the next one, cyclically, in some order. Then
/// this is whether the list goes once round in that order.
pub fn turns_once<F: Fn(DartId) -> bool>(map: &HalfMap, v: VertexId, test: F) -> bool
    requires vertex { v.0 < length map.now.lists }
    requires test { (e : TheDart) → IsLive map.now e.0 → F.pre test e }
    ensures { TurnsOnce map.now (F.post test) v.0 result }
{
    match map.first_dart(v) {
        Some(first) => turns_round(map, &test, v, first),
        None => true,
    }
}
