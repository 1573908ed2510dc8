//! The public call `separating_pair_by`: the first vertex with a partner, and the least partner of it.
ghost use Rattle.std.specs.Prelude.{◌≡◌, ◌≢◌, ◌<◌, ◌≤◌, ℕ, length, Some, MatchOption, IsTrue, IfOk};
ghost use Rattle.map_theory.specs.Maps.{IsPlane};
ghost use Rattle.half_edges.specs.Map.{IsLive, dart_at, first_dart};
ghost use Rattle.euler_faces.specs.FaceWalks.{AreFaces, walk_at};
ghost use Rattle.graph_search.specs.Cuts.{IsCutVertex, IsSeparatingPair, IsLeastPair};
ghost use Rattle.convex_class.specs.Passing.{IsUnused};

use crate::face_pairs::partner_marks::PartnerSearch;
use crate::face_pairs::uncut_map::UncutMap;
use euler_faces::Faces;
use half_edges::{FaceId, HalfMap, VertexId};
use std::alloc::{AllocError, Global};

impl UncutMap<'_> {
    // Returns the least vertex greater than `u` with which `u` is a separating pair, or the number of vertices if none
    // is. `marks` has an entry for each vertex, none of them `u` at first.
    fn partner(&self, u: VertexId, marks: &mut [u16]) -> u16
        requires vertex { u.0 < length self.now.map.now.lists }
        requires marks { length marks.old ≡ length self.now.map.now.lists }
        requires unused { IsUnused marks.old u.0 }
        ensures pair { result < length self.now.map.now.lists → IsSeparatingPair self.now.map.now.lists u.0 result }
        ensures least { (w : ℕ) → IsSeparatingPair self.now.map.now.lists u.0 w → result ≤ w }
        ensures unused { (x : ℕ) → x ≢ u.0 → IsUnused marks.old x → IsUnused marks.new x }
    {
        self.facts();
        let uncut = *self;
        let at = PartnerSearch { uncut, u };
        let mut best = uncut.map.n();
        let Some(first) = uncut.map.first_dart(u) else {
            return best;
        };
        let mut d = first;
        'round: loop {
            let walk = uncut.faces.walk(uncut.faces.of_dart(d));
            best = at.mark_walk(walk, marks, best);
            d = uncut.map.next(d);
            if d.0 == first.0 {
                return best;
            }
        }
    }

    // Returns the least separating pair, or `None` where there is none; no pair has a vertex before `from`. `marks` has
    // an entry for each vertex, and none of them names a vertex yet.
    fn first_pair(&self, from: u16, marks: &mut [u16]) -> Option<(VertexId, VertexId)>
        requires from { (u v : ℕ) → IsSeparatingPair self.now.map.now.lists u v → from ≤ u }
        requires marks { length marks.old ≡ length self.now.map.now.lists }
        requires unused { (x : ℕ) → x < length self.now.map.now.lists → IsUnused marks.old x }
        ensures { MatchOption result ((u v : ℕ) → ¬ IsSeparatingPair self.now.map.now.lists u v) (λ p. IsLeastPair self.now.map.now.lists p.0.0 p.1.0) }
    {
        let view = *self;
        for u in from..view.map.n() {
            let v = view.partner(VertexId(u), marks);
            if v < view.map.n() {
                return Some((VertexId(u), VertexId(v)));
            }
        }
        None
    }
}

// Says whether no face has over three darts (only a yes is promised): then an uncut plane map has no separating pair.
fn has_short_faces(faces: &Faces) -> bool
    ensures { IsTrue result → (f : ℕ) → f < length faces.now → length (walk_at faces.now f) ≤ 3 }
{
    for f in 0..faces.count() {
        let walk = faces.walk(FaceId(f));
        if walk.len() > 3 {
            return false;
        }
    }
    true
}

/// Returns the least separating pair of `map`, by its first vertex and then by its second, or None exactly where there
/// is none. `map` has genus zero and no cut vertices, and `faces` are its faces.
///
/// It fails only when out of memory. The memory is linear in the vertices and the darts, and so is the time for a
/// connected map of at least four vertices. Elsewhere the time is the sum of the lengths of faces over the darts:
/// quadratic at most. A map of triangles has no pair, and no search is made there.
pub fn separating_pair_by(
    alloc: Global,
    map: &HalfMap,
    faces: &Faces,
) -> Result<Option<(VertexId, VertexId)>, AllocError>
    requires plane { IsPlane map.now.lists }
    requires uncut { (v : ℕ) → ¬ IsCutVertex map.now.lists v }
    requires faces { AreFaces map.now faces.now }
    ensures { IfOk result (λ found. MatchOption found ((u v : ℕ) → ¬ IsSeparatingPair map.now.lists u v) (λ p. IsLeastPair map.now.lists p.0.0 p.1.0)) }
{
    if has_short_faces(faces) {
        return Ok(None);
    }
    let view = UncutMap { map, faces };
    let from = view.least_paired(alloc)?;
    if from >= map.n() {
        return Ok(None);
    }
    let mut marks = vec![in alloc; map.n(); map.n() as usize]?;
    let pair = view.first_pair(from, &mut marks);
    Ok(pair)
}
