//! Marks, one vertex at a time, on the greater vertices that its faces pass; one marked twice makes a separating pair.
ghost use Rattle.std.specs.Prelude.{◌≡◌, ◌⊎◌, ◌≢◌, ◌+◌, ◌<◌, ◌≤◌, ℕ, length, Some, Contains};
ghost use Rattle.half_edges.specs.Map.{IsLive, dart_at};
ghost use Rattle.euler_faces.specs.FaceWalks.{IsFaceWalk, ids_of};
ghost use Rattle.vertex_rounds.proofs.RoundLemmas.{LeavesFrom, place_at};
ghost use Rattle.convex_class.specs.Passing.{AreMarksOf, IsUnused, IsMarked};

use crate::face_pairs::uncut_map::UncutMap;
use half_edges::{DartId, VertexId};

// Sets the entry of `w` in `marks` to `u`. Returns the lesser of `best` and `w` if `u` was there before, else `best`.
fn mark(marks: &mut [u16], u: u16, w: u16, best: u16) -> u16
    requires { w < length marks.old }
    ensures { IsMarked u w marks.old best marks.new result }
{
    let again = marks[w as usize] == u;
    marks[w as usize] = u;
    if again && w < best { w } else { best }
}

/// A vertex whose face boundaries are searched for greater vertices that two of them pass.
#[derive(Clone, Copy)]
pub(crate) struct PartnerSearch<'a> {
    pub(crate) uncut: UncutMap<'a>,
    pub(crate) u: VertexId,
}

impl PartnerSearch<'_> {
    // Sets to this vertex `u`, in `marks`, the entry of the tail of dart `d`, if the tail is greater than `u` and the
    // head is not `u`. Returns the lesser of `best` and the tail if its entry was `u` already, else `best`.
    fn mark_tail(&self, d: DartId, marks: &mut [u16], best: u16) -> u16
        requires live { IsLive self.now.uncut.map.now d.0 }
        requires marks { length marks.old ≡ length self.now.uncut.map.now.lists }
        ensures passed { (w h : ℕ) → dart_at self.now.uncut.map.now d.0 ≡ Some (w, h) → self.now.u.0 < w → h ≢ self.now.u.0 → IsMarked self.now.u.0 w marks.old best marks.new result }
        ensures other { (w h : ℕ) → dart_at self.now.uncut.map.now d.0 ≡ Some (w, h) → (w ≤ self.now.u.0) ⊎ (h ≡ self.now.u.0) → (marks.new ≡ marks.old) × (result ≡ best) }
    {
        self.uncut.facts();
        let w = self.uncut.map.tail(d);
        let h = self.uncut.map.head(d);
        if self.u.0 < w.0 && h.0 != self.u.0 {
            mark(marks, self.u.0, w.0, best)
        } else {
            best
        }
    }

    // Calls `mark_tail` for each dart of `walk`, a face of this vertex `u`: sets the entries in `marks` of the greater
    // vertices on it to `u`. Returns the least of `best` and of those whose entry was `u` already.
    pub(crate) fn mark_walk(&self, walk: &[DartId], marks: &mut [u16], mut best: u16) -> u16
        requires walk { IsFaceWalk self.now.uncut.map.now (ids_of walk.now) }
        requires marks { length marks.old ≡ length self.now.uncut.map.now.lists }
        ensures marked { (d : ℕ) → LeavesFrom self.now.uncut.map.now self.now.u.0 d → Contains (ids_of walk.now) d
            → AreMarksOf self.now.uncut.map.now.lists self.now.u.0 (place_at self.now.uncut.map.now self.now.u.0 d) marks.old best
            → AreMarksOf self.now.uncut.map.now.lists self.now.u.0 (place_at self.now.uncut.map.now self.now.u.0 d + 1) marks.new result }
        ensures unused { (x : ℕ) → x ≢ self.now.u.0 → IsUnused marks.old x → IsUnused marks.new x }
    {
        self.uncut.facts();
        let at = *self;
        for d in walk {
            best = at.mark_tail(*d, marks, best);
        }
        best
    }
}
