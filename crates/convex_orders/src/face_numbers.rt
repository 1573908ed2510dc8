//! The face numbers of a half-edge map for each entry of its lists: of the face of the dart, and of the face of the
//! dart back. With them code goes round a vertex by slices alone.

ghost use Rattle.std.specs.Prelude.{◌≡◌, ◌<◌, ℕ, length, Some, IfOk};
ghost use Rattle.map_theory.specs.Maps.{list_of};
ghost use Rattle.half_edges.specs.Map.{IsLive, dart_at, first_dart};
ghost use Rattle.euler_faces.specs.FaceWalks.{AreFaces};
ghost use Rattle.convex_orders.specs.FaceNumbers.{HasFacesAt, InWalk, AreOwn, AreOther, AreFaceNumbers, IsRowPut};

use euler_faces::Faces;
use half_edges::{DartId, HalfMap, VertexId};
use map_lists::ItemLists;
use std::alloc::{AllocError, Global};

/// For each entry of a map's lists the numbers of the two faces at that edge.
#[derive(Drop)]
pub struct FaceNumbers {
    /// The number of the face of the dart to the entry.
    pub own: ItemLists<u32>,
    /// The number of the face of the dart back.
    pub other: ItemLists<u32>,
    /// How many numbers there are.
    pub count: u32,
}

// A map with the walks round its faces.
#[derive(Clone, Copy)]
struct WalkedMap<'a> {
    map: &'a HalfMap,
    faces: &'a Faces,
}

impl WalkedMap<'_> {
    // Returns the number of the face of the live dart `d`.
    fn number_of(&self, d: DartId) -> u32
        requires faces { AreFaces self.now.map.now self.now.faces.now }
        requires live { IsLive self.now.map.now d.0 }
        ensures { (u v : ℕ) → dart_at self.now.map.now d.0 ≡ Some (u, v) → InWalk self.now.map.now self.now.faces.now result u v }
    {
        self.faces.of_dart(d).0
    }

    // Appends for each dart in the list of `v` the number of its face to `own`, and that of its twin's to `other`.
    fn put_vertex(
        &self,
        v: VertexId,
        own: &mut Vec<u32>,
        other: &mut Vec<u32>,
    ) -> Result<(), AllocError>
        requires { HasFacesAt self.now.map.now self.now.faces.now v.0 }
        ensures own { IfOk result (λ _. IsRowPut (AreOwn self.now.map.now self.now.faces.now v.0) (length (list_of self.now.map.now.lists v.0)) own.old.items own.new.items) }
        ensures other { IfOk result (λ _. IsRowPut (AreOther self.now.map.now self.now.faces.now v.0) (length (list_of self.now.map.now.lists v.0)) other.old.items other.new.items) }
    {
        let walked = *self;
        let Some(first) = walked.map.first_dart(v) else {
            return Ok(());
        };
        let degree = usize::from(walked.map.degree(v));
        own.reserve(degree)?;
        other.reserve(degree)?;
        let mut d = first;
        for _ in 0..degree {
            let twin = walked.map.twin(d);
            own.push_reserved(walked.number_of(d));
            other.push_reserved(walked.number_of(twin));
            d = walked.map.next(d);
        }
        Ok(())
    }
}

/// Returns for each list entry of `map` the numbers of the faces of its dart and of the dart back, by the map's
/// `faces`. It fails only when out of memory. The time and the memory are linear in the darts.
pub fn numbers_of_faces(
    alloc: Global,
    map: &HalfMap,
    faces: &Faces,
) -> Result<FaceNumbers, AllocError>
    requires faces { AreFaces map.now faces.now }
    ensures { IfOk result (λ t. AreFaceNumbers map.now.lists t.own t.other t.count) }
{
    let items = 2 * map.m() as usize;
    let mut own = Vec::with_capacity(alloc, items)?;
    let mut own_ends = Vec::with_capacity(alloc, map.n() as usize)?;
    let mut other = Vec::with_capacity(alloc, items)?;
    let mut other_ends = Vec::with_capacity(alloc, map.n() as usize)?;
    let walked = WalkedMap { map, faces };
    for v in 0..map.n() {
        walked.put_vertex(VertexId(v), &mut own, &mut other)?;
        own_ends.push(own.len())?;
        other_ends.push(other.len())?;
    }
    let count = faces.count();
    Ok(FaceNumbers {
        own: ItemLists::from_parts(own, own_ends),
        other: ItemLists::from_parts(other, other_ends),
        count,
    })
}
