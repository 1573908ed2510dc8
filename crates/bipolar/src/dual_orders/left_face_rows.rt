//! The numbers of the faces on the left of the edges, listed round each vertex.
ghost use Rattle.std.specs.Prelude.{◌≡◌, ◌<◌, ℕ, length, slice_index, Some, IfOk};
ghost use Rattle.map_theory.specs.Maps.{list_of};
ghost use Rattle.half_edges.specs.Map.{IsLive, dart_at, first_dart};
ghost use Rattle.euler_faces.specs.FaceWalks.{AreFaces};
ghost use Rattle.bipolar.specs.FaceArcs.{IsNumberOf, IsLeftNumber, ArePutNumbers, AreNumberRows};

use crate::dual_orders::dual_arcs::DirectedMap;
use euler_faces::Faces;
use half_edges::{Counts, DartId, HalfMap, VertexId};
use map_lists::ItemLists;
use std::alloc::{AllocError, Global};

/// A map with ranks of its vertices, and numbers of its faces.
#[derive(Clone, Copy)]
pub(crate) struct NumberedMap<'a> {
    pub(crate) map: &'a HalfMap,
    pub(crate) rank: &'a Counts,
    pub(crate) faces: &'a Faces,
    pub(crate) numbers: &'a [u32],
    pub(crate) ghost ranks: { length rank.now ≡ length map.now.lists },
    pub(crate) ghost count: { length numbers.now ≡ length faces.now },
}

impl NumberedMap<'_> {
    // Returns the number of the face of dart `d`.
    fn face_number(&self, d: DartId) -> u32
        requires faces { AreFaces self.now.map.now self.now.faces.now }
        requires live { IsLive self.now.map.now d.0 }
        ensures { (u v : ℕ) → dart_at self.now.map.now d.0 ≡ Some (u, v) → IsNumberOf self.now.map.now self.now.faces.now self.now.numbers.now u v result }
    {
        self.numbers[self.faces.of_dart(d).0 as usize]
    }

    // Returns the number of the face on the left of the edge of `d`, directed to its end of greater rank.
    fn left_number(&self, d: DartId) -> u32
        requires faces { AreFaces self.now.map.now self.now.faces.now }
        requires live { IsLive self.now.map.now d.0 }
        ensures { (u v : ℕ) → dart_at self.now.map.now d.0 ≡ Some (u, v) → IsLeftNumber self.now.map.now self.now.faces.now self.now.rank.now self.now.numbers.now u v result }
    {
        let ranked = DirectedMap {
            map: self.map,
            rank: self.rank,
        };
        if ranked.goes_up(d) {
            self.face_number(d)
        } else {
            self.face_number(self.map.twin(d))
        }
    }

    // Appends to `entries` the left numbers of the edges of `v`, in the order of its list.
    fn put_vertex(&self, v: VertexId, entries: &mut Vec<u32>) -> Result<(), AllocError>
        requires faces { AreFaces self.now.map.now self.now.faces.now }
        requires vertex { v.0 < length self.now.map.now.lists }
        ensures { IfOk result (λ _. ArePutNumbers self.now.map.now self.now.faces.now self.now.rank.now self.now.numbers.now v.0 (length (list_of self.now.map.now.lists v.0)) entries.old.items entries.new.items) }
    {
        let Some(first) = self.map.first_dart(v) else {
            return Ok(());
        };
        let mut d = first;
        for _ in 0..self.map.degree(v) {
            entries.push(self.left_number(d))?;
            d = self.map.next(d);
        }
        Ok(())
    }

    /// Returns for each vertex the dual numbers of its edges, in the order of its list: the numbers of the faces on
    /// their left. Each edge is directed to its end of greater rank. It fails only when out of memory.
    pub(crate) fn number_rows(&self, alloc: Global) -> Result<ItemLists<u32>, AllocError>
        requires faces { AreFaces self.now.map.now self.now.faces.now }
        ensures { IfOk result (AreNumberRows self.now.map.now self.now.faces.now self.now.rank.now self.now.numbers.now) }
    {
        let numbered = *self;
        let mut entries = Vec::with_capacity(alloc, 2 * numbered.map.m() as usize)?;
        let mut ends = Vec::with_capacity(alloc, numbered.map.n() as usize)?;
        for v in 0..numbered.map.n() {
            numbered.put_vertex(VertexId(v), &mut entries)?;
            ends.push(entries.len())?;
        }
        Ok(ItemLists::from_parts(entries, ends))
    }
}
