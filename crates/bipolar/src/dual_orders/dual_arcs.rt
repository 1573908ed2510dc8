//! The dual graph of a half-edge map with ranks: for each face those on the right of its upward edges.
ghost use Rattle.std.specs.Prelude.{◌≡◌, ◌<◌, ◌^◌, ◌↔◌, ℕ, length, slice_index, Some, IsTrue, IfOk};
ghost use Rattle.half_edges.specs.Map.{IsHalfMap, IsLive, dart_at};
ghost use Rattle.euler_faces.specs.FaceWalks.{AreFaces, walk_at, ids_of};
ghost use Rattle.bipolar.specs.FaceArcs.{ArePutRight, AreFaceArcs};

use euler_faces::Faces;
use half_edges::{Counts, DartId, FaceId, HalfMap};
use map_lists::ItemLists;
use std::alloc::{AllocError, Global};

/// A half-edge map with ranks of its vertices.
#[derive(Clone, Copy)]
pub(crate) struct DirectedMap<'a> {
    pub(crate) map: &'a HalfMap,
    pub(crate) rank: &'a Counts,
    pub(crate) ghost ranks: { length rank.now ≡ length map.now.lists },
}

impl DirectedMap<'_> {
    /// Says whether dart `d` leads to a vertex of greater rank.
    pub(crate) fn goes_up(&self, d: DartId) -> bool
        requires { IsLive self.now.map.now d.0 }
        ensures { (u v : ℕ) → dart_at self.now.map.now d.0 ≡ Some (u, v) → (IsTrue result ↔ (slice_index self.now.rank.now u < slice_index self.now.rank.now v)) }
    {
        self.rank.get(self.map.tail(d).0 as usize) < self.rank.get(self.map.head(d).0 as usize)
    }

    // Appends to `entries` the right faces of the upward darts on the walk (facial cycle) of face `f`.
    fn put_walk(&self, faces: &Faces, f: u32, entries: &mut Vec<u32>) -> Result<(), AllocError>
        requires faces { AreFaces self.now.map.now faces.now }
        requires face { f < length faces.now }
        ensures { IfOk result (λ _. ArePutRight self.now.map.now faces.now self.now.rank.now (walk_at faces.now f) entries.old.items entries.new.items) }
    {
        for d in faces.walk(FaceId(f)) {
            if !self.goes_up(*d) {
                continue;
            }
            let back = self.map.twin(*d);
            entries.push(faces.of_dart(back).0)?;
        }
        Ok(())
    }
}

/// Returns for each of the `faces` of `map` the faces on the right of the upward edges that have it on their left.
/// Edges go upwards by `rank`, the rank of each vertex. It fails only when out of memory.
pub fn face_arcs(
    alloc: Global,
    map: &HalfMap,
    rank: &Counts,
    faces: &Faces,
) -> Result<ItemLists<u32>, AllocError>
    requires known { IsHalfMap map.now }
    requires ranks { length rank.now ≡ length map.now.lists }
    requires faces { AreFaces map.now faces.now }
    ensures arcs { IfOk result (AreFaceArcs map.now faces.now rank.now) }
    ensures few { IfOk result (λ arcs. length arcs < 2 ^ 32) }
{
    let ranked = DirectedMap { map, rank };
    let mut entries = Vec::with_capacity(alloc, map.m() as usize)?;
    let mut ends = Vec::with_capacity(alloc, faces.count() as usize)?;
    for f in 0..faces.count() {
        ranked.put_walk(faces, f, &mut entries)?;
        ends.push(entries.len())?;
    }
    Ok(ItemLists::from_parts(entries, ends))
}
