//! The call for C that walks along the faces of a map.
ghost use Rattle.std.specs.Prelude.{◌≡◌, ◌<◌, ℕ, length, slice_index, Some, IfOk, IfErr};
ghost use Rattle.half_edges.specs.Map.{IsLive};
ghost use Rattle.euler_faces.specs.FaceWalks.{AreFaces, ids_of};
ghost use Rattle.refusals.specs.Conditions.{fault_refusal};
ghost use Rattle.pigale_c.specs.Arrays.{lists_in, IsGivenMap};
ghost use Rattle.pigale_c.specs.Failures.{Fails};
ghost use Rattle.pigale_c.specs.Walked.{AreFacesWritten, AreTails, HasTails, IsFaced};
ghost use Rattle.pigale_c.specs.Numbers.{Reports};

use crate::map_arrays::{lists_of, put_lists};
use crate::outcome::{Failure, Numbers, Outcome, report};
use euler_faces::{Faces, faces};
use half_edges::HalfMap;
use map_lists::{DartId, FaceId, ItemLists};
use std::alloc::{AllocError, Global};

// Returns the tails of the darts `walk` of `map`, in their order. It fails only when out of memory.
fn tails_along(alloc: Global, map: &HalfMap, walk: &[DartId]) -> Result<Vec<u16>, AllocError>
    requires { (i : ℕ) → i < length walk.now → IsLive map.now (slice_index (ids_of walk.now) i) }
    ensures { IfOk result (λ tails. HasTails map.now (ids_of walk.now) tails.items) }
{
    let mut tails = Vec::with_capacity(alloc, walk.len())?;
    for d in walk {
        tails.push(map.tail(*d).0)?;
    }
    Ok(tails)
}

// Returns the tails of the darts of each of the faces `found` of `map`. It fails only when out of memory.
fn tails_of(alloc: Global, map: &HalfMap, found: &Faces) -> Result<ItemLists<u16>, AllocError>
    requires { AreFaces map.now found.now }
    ensures { IfOk result (AreTails map.now found.now) }
{
    let mut rows = ItemLists::with_capacity(alloc, 2 * map.m() as usize, found.count() as usize)?;
    for f in 0..found.count() {
        let tails = tails_along(alloc, map, found.walk(FaceId(f)))?;
        rows.push(&tails)?;
    }
    Ok(rows)
}

// Returns the walks of the faces of the map (`neighbours` cut into lists at `ends`), each as the tails of its darts.
fn walks_of(alloc: Global, ends: &[usize], neighbours: &[u16]) -> Result<ItemLists<u16>, Failure>
    ensures walks { IfOk result (IsFaced (lists_in ends.now neighbours.now)) }
    ensures given { IfOk result (λ rows. IsGivenMap ends.now neighbours.now) }
    ensures failed { IfErr result (Fails (IsGivenMap ends.now neighbours.now) (λ refusal. fault_refusal (lists_in ends.now neighbours.now) ≡ Some refusal)) }
{
    let lists = lists_of(alloc, ends, neighbours)?;
    let map = HalfMap::from_rotations(alloc, &lists)?;
    let found = faces(alloc, &map)?;
    let rows = tails_of(alloc, &map, &found)?;
    Ok(rows)
}

/// Writes the walks of the faces of a map (`neighbours` cut into lists at `ends`) to `walk`, each as the tails of its
/// darts, where each ends to `face_ends`, and how many there are to `face_count`. Returns a status, and writes what it
/// names to `found`.
#[unsafe(no_mangle)]
pub extern "C" fn pigale_faces(
    alloc: Global,
    ends: &[usize],
    neighbours: &[u16],
    face_ends: &mut [usize],
    walk: &mut [u16],
    face_count: &mut usize,
    found: &mut Numbers,
) -> u8
    ensures { Reports (AreFacesWritten ends.now neighbours.now face_ends.old walk.old face_count.old face_ends.new walk.new face_count.new) result found.new }
{
    match walks_of(alloc, ends, neighbours) {
        Ok(rows) => {
            if !put_lists(rows.ends(), rows.entries(), face_ends, walk) {
                return report(Err(Failure::BadArgument), found);
            }
            *face_count = rows.len();
            report(Ok(Outcome::Served), found)
        }
        Err(failure) => report(Err(failure), found),
    }
}
