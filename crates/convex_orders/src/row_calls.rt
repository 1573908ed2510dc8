//! The public calls that make the rows of a construction sequence, from lists and faces of a map.
ghost use Rattle.std.specs.Prelude.{◌≡◌, ◌<◌, ℕ, Some, IfOk};
ghost use Rattle.map_theory.specs.Maps.{IsPlane, HasDart};
ghost use Rattle.convex_peeling.specs.Polyhedral.{IsThreeConnected};
ghost use Rattle.euler_faces.specs.FaceWalks.{AreFaces};
ghost use Rattle.half_edges.specs.Map.{IsLive, dart_at};
ghost use Rattle.convex_laws.specs.Removed.{AreRowsOfRun};
ghost use Rattle.convex_orders.specs.FaceNumbers.{AreFaceNumbers};

use crate::contour_counts::ContourCounts;
use crate::contour_tracing::ContourFaces;
use crate::face_numbers::{FaceNumbers, numbers_of_faces};
use crate::map_tables::Tables;
use crate::removals::RowTables;
use convex_laws::convex_rows::ConvexRows;
use euler_faces::Faces;
use half_edges::{DartId, HalfMap};
use map_lists::Rotations;
use std::alloc::{AllocError, Global};

// Returns a copy of `lists`, in the memory of `spent`, whose own lists are dropped.
fn copied(spent: Rotations, lists: &Rotations) -> Result<Rotations, AllocError>
    ensures { IfOk result (λ copy. copy ≡ lists.now) }
{
    lists.facts();
    let (mut entries, mut ends) = spent.into_parts();
    entries.clear();
    entries.extend_from_slice(lists.entries())?;
    ends.clear();
    ends.extend_from_slice(lists.ends())?;
    Ok(Rotations::from_parts(entries, ends))
}

/// Returns the tables of a three-connected map of genus zero, with the dart from `tail` to `head` as its base. They
/// have a copy of `lists`, in the memory of `spent`, and `faces`, which numbers the faces at each list entry.
pub fn tables_of(
    spent: Rotations,
    lists: &Rotations,
    faces: FaceNumbers,
    tail: u16,
    head: u16,
) -> Result<Tables, AllocError>
    requires plane { IsPlane lists.now }
    requires three { IsThreeConnected lists.now }
    requires base { HasDart lists.now tail head }
    requires numbers { AreFaceNumbers lists.now faces.own faces.other faces.count }
    ensures lists { IfOk result (λ made. made.lists ≡ lists.now) }
    ensures faces { IfOk result (λ made. made.faces ≡ faces) }
    ensures tail { IfOk result (λ made. made.tail ≡ tail) }
    ensures head { IfOk result (λ made. made.head ≡ head) }
{
    let lists = copied(spent, lists)?;
    Ok(Tables {
        lists,
        faces,
        tail,
        head,
    })
}

/// Returns the rows (steps) of a construction sequence of the three-connected plane map of `tables`, in the memory of
/// `spent`. It fails only when out of memory.
///
/// The sequence makes all faces but that of the base, the dart from `tables.tail` to `tables.head`. The first vertex is
/// the base's head and the second its tail. The last is the vertex before the base on the base's face.
pub fn rows_in_memory(spent: RowTables, tables: &Tables) -> Result<RowTables, AllocError>
    ensures { IfOk result (λ made. AreRowsOfRun tables.now.lists tables.now.tail tables.now.head made.rows) }
{
    let mut made = spent;
    made.clear(tables)?;
    made.put_all(tables)?;
    Ok(made)
}

/// Returns the rows (steps) of a construction sequence of `map`, three-connected and of genus zero, for the dart `base`
/// from s to d. `lists` and `faces` are those of the map. It fails only when out of memory.
///
/// The sequence makes all faces but that of the base. The first vertex is d and the second s, and the last one is the
/// vertex before the base on the base's face.
pub fn rows_by_faces(
    alloc: Global,
    map: &HalfMap,
    lists: &Rotations,
    faces: &Faces,
    base: DartId,
) -> Result<ConvexRows, AllocError>
    requires plane { IsPlane map.now.lists }
    requires three { IsThreeConnected map.now.lists }
    requires lists { map.now.lists ≡ lists.now }
    requires faces { AreFaces map.now faces.now }
    requires live { IsLive map.now base.0 }
    ensures { IfOk result (λ rows. (s d : ℕ) → dart_at map.now base.0 ≡ Some (s, d) → AreRowsOfRun map.now.lists s d rows) }
{
    let faces = numbers_of_faces(alloc, map, faces)?;
    let (tail, head) = (map.tail(base).0, map.head(base).0);
    let tables = tables_of(Rotations::new(alloc), lists, faces, tail, head)?;
    let made = rows_in_memory(RowTables::new(alloc), &tables)?;
    Ok(made.rows)
}
