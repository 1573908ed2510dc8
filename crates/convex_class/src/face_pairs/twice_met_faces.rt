//! Faces that meet a given face twice, found from that face: across its edges and at its vertices.
ghost use Rattle.std.specs.Prelude.{◌≡◌, ◌≢◌, ◌<◌, ◌≤◌, ℕ, length, slice_index, Contains, IfOk};
ghost use Rattle.half_edges.specs.Map.{IsLive};
ghost use Rattle.euler_faces.specs.FaceWalks.{ids_of, walk_at};
ghost use Rattle.convex_class.specs.Clear.{IsNumber, IsAcross, IsOffPlace, IsClearFace, after_place};
ghost use Rattle.convex_class.specs.Meetings.{IsMet};

use crate::face_pairs::face_meetings::{Meeting, meet};
use crate::face_pairs::uncut_map::UncutMap;
use half_edges::DartId;
use std::alloc::AllocError;

/// A face by its number `f`, and the darts of its walk.
#[derive(Clone, Copy)]
pub(crate) struct WalkedFace<'a> {
    pub(crate) uncut: UncutMap<'a>,
    pub(crate) f: u32,
    pub(crate) walk: &'a [DartId],
    ghost face: { f < length uncut.faces.now },
    ghost walked: { ids_of walk.now ≡ walk_at uncut.faces.now f },
}

// A vertex of a face, as the meeting `place`. Faces `x` and `y` across the walk's two darts there are noted already.
#[derive(Clone, Copy)]
struct FaceVertex<'a> {
    uncut: UncutMap<'a>,
    place: Meeting,
    x: u32,
    y: u32,
}

// Returns the dart after index `i` in `walk`, cyclically.
fn behind(walk: &[DartId], i: usize) -> DartId
    requires { i < length walk.now }
    ensures { result.0 ≡ after_place (ids_of walk.now) i }
{
    if i + 1 < walk.len() {
        walk[i + 1]
    } else {
        walk[0]
    }
}

impl UncutMap<'_> {
    // Returns the number of the face across dart `d`, that of its twin.
    fn across(&self, d: DartId) -> u32
        requires live { IsLive self.now.map.now d.0 }
        ensures within { result < length self.now.faces.now }
        ensures is { IsAcross self.now.map.now self.now.faces.now d.0 result }
        ensures all { (z : ℕ) → IsAcross self.now.map.now self.now.faces.now d.0 z → z ≡ result }
    {
        self.facts();
        let twin = self.map.twin(d);
        self.faces.of_dart(twin).0
    }
}

impl FaceVertex<'_> {
    // Notes in `met`, by face, that the faces of the darts of `ring` meet the face of `place` there, except that face,
    // `x` and `y`. Returns the least of `best` and the vertices of second meetings.
    fn meet_round(&self, ring: &[DartId], met: &mut [Meeting], mut best: u16) -> u16
        requires ring { (i : ℕ) → i < length (ids_of ring.now) → IsLive self.now.uncut.map.now (slice_index (ids_of ring.now) i) }
        requires met { length met.old ≡ length self.now.uncut.faces.now }
        ensures { IsMet self.now.place.face (λ z t h. (c : ℕ) × Contains (ids_of ring.now) c × IsNumber self.now.uncut.faces.now c z × (z ≢ self.now.place.face) × (z ≢ self.now.x) × (z ≢ self.now.y) × (t ≡ self.now.place.tail) × (h ≡ self.now.place.head)) met.old best met.new result }
    {
        let FaceVertex { uncut, place, x, y } = *self;
        uncut.facts();
        for c in ring {
            let z = uncut.faces.of_dart(*c).0;
            if z == place.face {
                continue;
            }
            if z == x || z == y {
                continue;
            }
            best = meet(met, z, place, best);
        }
        best
    }
}

impl WalkedFace<'_> {
    // Notes in `met` the faces that meet this one at single vertices with no more darts than it. Returns the least of
    // `best` and the vertices of second meetings. Faces across edges are noted already; `ring` takes a vertex's darts.
    fn meet_corners(
        &self,
        ring: &mut Vec<DartId>,
        met: &mut [Meeting],
        mut best: u16,
    ) -> Result<u16, AllocError>
        requires met { length met.old ≡ length self.now.uncut.faces.now }
        ensures { IfOk result (λ least. IsMet self.now.f (λ z x y. (i : ℕ) × (i < length (walk_at self.now.uncut.faces.now self.now.f)) × IsOffPlace self.now.uncut.map.now self.now.uncut.faces.now self.now.f i z x y) met.old best met.new least) }
    {
        let WalkedFace { uncut, f, walk } = *self;
        uncut.facts();
        for i in 0..walk.len() {
            let next = behind(walk, i);
            let v = uncut.map.tail(next);
            if uncut.map.degree(v) as usize > walk.len() {
                continue;
            }
            let x = uncut.across(walk[i]);
            let y = uncut.across(next);
            uncut.put_ring(v, ring)?;
            let place = Meeting {
                face: f,
                tail: v.0,
                head: v.0,
            };
            let spot = FaceVertex { uncut, place, x, y };
            best = spot.meet_round(ring, met, best);
        }
        Ok(best)
    }

    // Returns the least of `best` and the vertices of this face at which another face meets it twice: across its darts,
    // or at vertices with no more darts than it. The vertex between two darts with one face across counts for neither.
    // `ring` is memory for a vertex's darts, and `met` has an entry for each face: where it met this one first.
    pub(crate) fn least(
        &self,
        ring: &mut Vec<DartId>,
        met: &mut [Meeting],
        mut best: u16,
    ) -> Result<u16, AllocError>
        requires met { length met.old ≡ length self.now.uncut.faces.now }
        ensures lower { IfOk result (λ least. least ≤ best) }
        ensures clear { IfOk result (λ least. IsClearFace self.now.uncut.map.now self.now.uncut.faces.now least self.now.f) }
    {
        let WalkedFace { uncut, f, walk } = *self;
        uncut.facts();
        for d in walk {
            let z = uncut.across(*d);
            let tail = uncut.map.tail(*d).0;
            let head = uncut.map.head(*d).0;
            let place = Meeting {
                face: f,
                tail,
                head,
            };
            best = meet(met, z, place, best);
        }
        let least = self.meet_corners(ring, met, best)?;
        Ok(least)
    }
}
