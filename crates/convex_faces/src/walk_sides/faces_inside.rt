//! The public call `inside_count`, which counts the faces that a closed walk encloses.
ghost use Rattle.std.specs.Prelude.{◌≡◌, ◌<◌, ◌*◌, ℕ, Bool, List, false, Some, length, IfOk};
ghost use Rattle.classes.specs.Classes.{count_below};
ghost use Rattle.map_theory.specs.Maps.{Dart, IsPlane, component_count};
ghost use Rattle.half_edges.specs.Map.{IsHalfMap, IsLive, dart_at, id_bound};
ghost use Rattle.euler_faces.specs.Numbers.{mark_at};
ghost use Rattle.euler_faces.specs.FaceWalks.{AreFaces};
ghost use Rattle.convex_laws.specs.Walks.{IsWalk, is_odd_on};
ghost use Rattle.convex_laws.specs.Inside.{IsInsideCount};
ghost use Rattle.convex_faces.specs.Passing.{HasMarks};
ghost use Rattle.convex_faces.specs.Search.{is_counted};

use euler_faces::{Faces, faces, mark_reached};
use half_edges::{DartId, FaceId, HalfMap};
use std::alloc::{AllocError, Global};

// Says whether face `f` is not `outer` and was reached over an odd number of marked edges. `met` has two entries for
// each dart id: whether a search reached it over an even number, and over an odd one.
fn is_inside(map: &HalfMap, faces: &Faces, met: &[bool], outer: FaceId, f: FaceId) -> bool
    requires faces { AreFaces map.now faces.now }
    requires room { length met.now ≡ 2 * id_bound map.now }
    requires face { f.0 < length faces.now }
    ensures { result ≡ is_counted faces.now met.now outer.0 f.0 }
{
    let first = faces.walk(f)[0];
    f.0 != outer.0 && met[2 * (first.0 as usize) + 1]
}

// Returns how many faces but `outer` lie inside, by the marks `met` of a search as `is_inside` reads them.
fn counted(map: &HalfMap, faces: &Faces, met: &[bool], outer: FaceId) -> u32
    requires faces { AreFaces map.now faces.now }
    requires room { length met.now ≡ 2 * id_bound map.now }
    ensures { result ≡ count_below (is_counted faces.now met.now outer.0) (length faces.now) }
{
    let mut count = 0;
    for f in 0..faces.count() {
        count += is_inside(map, faces, met, outer, FaceId(f)) as u32;
    }
    count
}

// Returns what [`inside_count`] returns. `met` is room for two marks for each dart id, all unset at first.
fn count_with(
    alloc: Global,
    map: &HalfMap,
    marked: &[bool],
    met: &mut [bool],
    base: DartId,
) -> Result<u32, AllocError>
    requires plane { IsPlane map.now.lists }
    requires connected { component_count map.now.lists ≡ 1 }
    requires live { IsLive map.now base.0 }
    requires marks { length marked.now ≡ id_bound map.now }
    requires room { length met.old ≡ 2 * id_bound map.now }
    requires unset { (i : ℕ) → mark_at met.old i ≡ false }
    ensures { IfOk result (λ k. (start : Dart) (v : ℕ) (walk : List Dart) → dart_at map.now base.0 ≡ Some start → IsWalk map.now.lists v v walk → HasMarks map.now (is_odd_on walk) marked.now → IsInsideCount map.now.lists start walk k) }
{
    mark_reached(alloc, map, met, base, |d| marked[d.0 as usize])?;
    let all = faces(alloc, map)?;
    Ok(counted(map, &all, met, all.of_dart(base)))
}

/// Returns how many faces lie inside a closed walk of the connected `map` of genus zero. The face of `base` is outside.
///
/// A face lies inside where a chain of faces from the base's face to it steps over the walk an odd number of times.
/// Each face of a chain shares an edge with the next. An edge that the walk passes twice counts twice. The answer does
/// not depend on the chain.
///
/// `marked` has an entry for each dart id: whether the walk passes that dart's edge an odd number of times.
///
/// Fails only when out of memory. The map stays as it is. The time is linear in the map: a search goes over its faces.
pub fn inside_count(
    alloc: Global,
    map: &HalfMap,
    marked: &[bool],
    base: DartId,
) -> Result<u32, AllocError>
    requires plane { IsPlane map.now.lists }
    requires connected { component_count map.now.lists ≡ 1 }
    requires live { IsLive map.now base.0 }
    requires marks { length marked.now ≡ id_bound map.now }
    ensures { IfOk result (λ k. (start : Dart) (v : ℕ) (walk : List Dart) → dart_at map.now base.0 ≡ Some start → IsWalk map.now.lists v v walk → HasMarks map.now (is_odd_on walk) marked.now → IsInsideCount map.now.lists start walk k) }
{
    let ids = 2 * (map.m() as usize + map.spare() as usize);
    let mut met = vec![in alloc; false; 2 * ids]?;
    count_with(alloc, map, marked, &mut met, base)
}
