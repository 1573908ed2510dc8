//! Vertices that share two faces with a given vertex, found from that vertex by its short faces.
ghost use Rattle.std.specs.Prelude.{◌≡◌, ◌≤◌, ℕ, length, slice_index, Contains};
ghost use Rattle.euler_faces.specs.FaceWalks.{IsFaceWalk, ids_of};
ghost use Rattle.convex_class.specs.Clear.{IsRing, IsOffAt, IsOff, IsClearVertex};
ghost use Rattle.convex_class.specs.Stamps.{IsStamped, AreStamped};

use crate::face_pairs::uncut_map::UncutMap;
use crate::face_pairs::vertex_stamps::stamp;
use half_edges::DartId;

/// A vertex `u`, and the darts from it in the order of its list.
#[derive(Clone, Copy)]
pub(crate) struct Star<'a> {
    pub(crate) uncut: UncutMap<'a>,
    pub(crate) u: u16,
    pub(crate) ring: &'a [DartId],
    ghost darts: { IsRing uncut.map.now u (ids_of ring.now) },
}

// The dart from a vertex `u` to its neighbour `a`, whose face is searched.
#[derive(Clone, Copy)]
struct FaceOf<'a> {
    uncut: UncutMap<'a>,
    u: u16,
    a: u16,
}

impl FaceOf<'_> {
    // Sets to `u`, in `marks`, the entries of the tails of the darts of face `walk`, except `u`, `a` and tails of darts
    // to `u`. Returns the least of `best` and, where some had that mark already, of those and `u`.
    fn mark_passed(&self, walk: &[DartId], marks: &mut [u16], mut best: u16) -> u16
        requires walk { IsFaceWalk self.now.uncut.map.now (ids_of walk.now) }
        requires marks { length marks.old ≡ length self.now.uncut.map.now.lists }
        ensures { IsStamped self.now.u (λ z. (d : ℕ) × Contains (ids_of walk.now) d × IsOffAt self.now.uncut.map.now self.now.u self.now.a d z) marks.old best marks.new result }
    {
        let FaceOf { uncut, u, a } = *self;
        uncut.facts();
        for d in walk {
            let z = uncut.map.tail(*d).0;
            let h = uncut.map.head(*d).0;
            if z == u || z == a {
                continue;
            }
            if h == u {
                continue;
            }
            best = stamp(marks, u, z, best);
        }
        best
    }
}

impl Star<'_> {
    // Calls `mark_passed` for each face at this vertex `u` with at most as many darts as `u` has: it sets the face's
    // vertices in `marks` to `u`. Returns the least of `best` and, where some had that mark already, of those and `u`.
    fn mark_faces(&self, marks: &mut [u16], mut best: u16) -> u16
        requires marks { length marks.old ≡ length self.now.uncut.map.now.lists }
        ensures { AreStamped self.now.u (length self.now.ring.now) (λ i. IsOff self.now.uncut.map.now self.now.uncut.faces.now (length self.now.ring.now) self.now.u (slice_index (ids_of self.now.ring.now) i)) marks.old best marks.new result }
    {
        let Star { uncut, u, ring } = *self;
        uncut.facts();
        for d in ring {
            let walk = uncut.faces.walk(uncut.faces.of_dart(*d));
            let a = uncut.map.head(*d).0;
            if walk.len() > ring.len() {
                continue;
            }
            best = FaceOf { uncut, u, a }.mark_passed(walk, marks, best);
        }
        best
    }

    // Looks for vertices that two faces of this vertex pass, other than along an edge from it. Returns the least of
    // `best` and, where it finds some, of those and this vertex. It searches only faces with no more darts than this
    // vertex has. The entries in `marks` of its neighbours and of the vertices on those faces are set to this vertex.
    pub(crate) fn least(&self, marks: &mut [u16], best: u16) -> u16
        requires marks { length marks.old ≡ length self.now.uncut.map.now.lists }
        ensures lower { result ≤ best }
        ensures clear { IsClearVertex self.now.uncut.map.now self.now.uncut.faces.now result self.now.u }
    {
        let Star { uncut, u, ring } = *self;
        uncut.facts();
        for d in ring {
            let z = uncut.map.head(*d);
            marks[z.0 as usize] = u;
        }
        self.mark_faces(marks, best)
    }
}
