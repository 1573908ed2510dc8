//! A lower bound for all separating pairs: a vertex such that no pair has a lesser one.
ghost use Rattle.std.specs.Prelude.{◌≡◌, ◌<◌, ◌≤◌, ℕ, length, IfOk};
ghost use Rattle.graph_search.specs.Cuts.{IsSeparatingPair};
ghost use Rattle.convex_class.specs.Clear.{IsClearVertex, IsClearFace};

use crate::face_pairs::face_meetings::Meeting;
use crate::face_pairs::twice_met_faces::WalkedFace;
use crate::face_pairs::twice_met_vertices::Star;
use crate::face_pairs::uncut_map::UncutMap;
use half_edges::{DartId, FaceId, VertexId};
use std::alloc::{AllocError, Global};

impl UncutMap<'_> {
    // Returns the least vertex that [`Star::least`] finds from some vertex, or the number of vertices. `ring` is memory
    // for a vertex's darts; `marks` has an entry for each vertex.
    fn least_at_vertices(
        &self,
        ring: &mut Vec<DartId>,
        marks: &mut [u16],
    ) -> Result<u16, AllocError>
        requires marks { length marks.old ≡ length self.now.map.now.lists }
        ensures { IfOk result (λ least. (u : ℕ) → u < length self.now.map.now.lists → IsClearVertex self.now.map.now self.now.faces.now least u) }
    {
        let view = *self;
        let mut best = view.map.n();
        for u in 0..view.map.n() {
            view.put_ring(VertexId(u), ring)?;
            let star = Star {
                uncut: view,
                u,
                ring,
            };
            best = star.least(marks, best);
        }
        Ok(best)
    }

    // Returns the least of `best` and the vertices that [`WalkedFace::least`] finds from some face. `ring` is memory
    // for a vertex's darts; `met` has an entry for each face: where it met the current face first.
    fn least_at_faces(
        &self,
        ring: &mut Vec<DartId>,
        met: &mut [Meeting],
        mut best: u16,
    ) -> Result<u16, AllocError>
        requires met { length met.old ≡ length self.now.faces.now }
        ensures lower { IfOk result (λ least. least ≤ best) }
        ensures clear { IfOk result (λ least. (f : ℕ) → f < length self.now.faces.now → IsClearFace self.now.map.now self.now.faces.now least f) }
    {
        let view = *self;
        for f in 0..view.faces.count() {
            let face = WalkedFace {
                uncut: view,
                f,
                walk: view.faces.walk(FaceId(f)),
            };
            best = face.least(ring, met, best)?;
        }
        Ok(best)
    }

    // Returns a lower bound of the vertices in separating pairs. It is the least vertex with two faces in common with
    // another, not those of an edge between both, or else the number of vertices. Each vertex looks at the faces that
    // have no more darts, and each face at the vertices, so that the time is linear.
    pub(crate) fn least_paired(&self, alloc: Global) -> Result<u16, AllocError>
        ensures { IfOk result (λ least. (u v : ℕ) → IsSeparatingPair self.now.map.now.lists u v → least ≤ u) }
    {
        self.facts();
        let mut ring = Vec::new(alloc);
        let mut marks = vec![in alloc; self.map.n(); self.map.n() as usize]?;
        let best = self.least_at_vertices(&mut ring, &mut marks)?;
        let none = Meeting {
            face: u32::MAX,
            tail: 0,
            head: 0,
        };
        let mut met = vec![in alloc; none; self.faces.count() as usize]?;
        let least = self.least_at_faces(&mut ring, &mut met, best)?;
        Ok(least)
    }
}
