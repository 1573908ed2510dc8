//! Numbers the faces of a map by the numbers of its darts, with no half-edge map, and lists the dual arcs between them.
ghost use Rattle.std.specs.Prelude.{◌≤◌, ◌≡◌, ◌<◌, ◌+◌, ◌==◌, ◌||◌, if◌then◌else◌, ◌∷◌, ◌^◌, ℕ, [], false, length, map, slice_index, slice_index_or, OnOk, IfOk};
ghost use Rattle.classes.specs.Classes.{same_class};
ghost use Rattle.classes.proofs.Marks.{KeepsMarks};
ghost use Rattle.map_lists.specs.Cuts.{cut};
ghost use Rattle.map_theory.specs.Maps.{face_images, face_classes};
ghost use Rattle.euler_faces.specs.Numbers.{mark_at};
ghost use Rattle.euler_faces.specs.Search.{IsNumberedBy};
ghost use Rattle.euler_faces.specs.FaceSearch.{no_face, with_face};
ghost use Rattle.bipolar.specs.FaceNumbers.{AreDarts, AreFaceNumbers, AreFaceArcs, IsPutUp, ArePutTwins, AreNumberedBelow};

use map_lists::ItemLists;
use std::alloc::{AllocError, Global};

// Stands in place of the face of a dart that was not met yet.
const NO_FACE: u32 = u32::MAX;

// A map by its concatenated lists and the twins of its darts, with ranks of its vertices.
#[derive(Clone, Copy)]
struct RankedDarts<'a> {
    entries: &'a [u16],
    ends: &'a [usize],
    twins: &'a [u32],
    rank: &'a [u16],
    ghost darts: { ∥ AreDarts entries.now ends.now twins.now ∥₁ },
    ghost ranks: { length rank.now ≡ length ends.now },
}

// Returns the index at which list `v` begins; `ends` has the ends of the concatenated lists.
fn start_of(ends: &[usize], v: usize) -> usize
    requires { v < length ends.now }
    ensures { result ≡ slice_index_or (0 ∷ ends.now) v 0 }
{
    if v == 0 { 0 } else { ends[v - 1] }
}

// Returns the number of the dart after dart `d` in list `v`, cyclically; `ends` has the ends of the lists.
fn after(ends: &[usize], v: usize, d: usize) -> usize
    requires v_in { v < length ends.now }
    requires fits { d < 4294967295 }
    ensures { result ≡ (if d + 1 == slice_index ends.now v then slice_index_or (0 ∷ ends.now) v 0 else d + 1) }
{
    if d + 1 == ends[v] {
        start_of(ends, v)
    } else {
        d + 1
    }
}

// Returns how many arcs a dart between ends of these ranks does not give: none where it leads upward, and else one.
#[inline(always)]
fn excess(tail: u16, head: u16) -> usize
    ensures up { tail < head → result ≡ 0 }
    ensures down { head ≤ tail → result ≡ 1 }
{
    if tail < head { 0 } else { 1 }
}

// Appends `twin`, the number of the twin of `dart`, to `arcs` where `dart`, as tail and head, leads to greater `rank`.
// Elsewhere it is appended too, and taken back.
fn put_upward(
    rank: &[u16],
    dart: (u16, u16),
    twin: u32,
    arcs: &mut Vec<u32>,
) -> Result<(), AllocError>
    requires tail { dart.0 < length rank.now }
    requires head { dart.1 < length rank.now }
    ensures { OnOk result (IsPutUp rank.now dart.0 dart.1 twin arcs.old.items arcs.new.items) }
{
    let down = excess(rank[dart.0 as usize], rank[dart.1 as usize]);
    arcs.push(twin)?;
    arcs.truncate(arcs.len() - down);
    Ok(())
}

impl RankedDarts<'_> {
    // Does nothing. By its contract a proof learns what holds of the darts.
    fn facts(&self)
        ensures { AreDarts self.now.entries.now self.now.ends.now self.now.twins.now }
    {}

    // Writes the number `f` to `of`, which has for each dart its face's number or `NO_FACE`, at the darts of the face
    // of `start`. Appends the twins of its upward darts to `arcs`.
    fn walk_face(
        &self,
        of: &mut [u32],
        arcs: &mut Vec<u32>,
        start: usize,
        f: u32,
    ) -> Result<(), AllocError>
        requires size { length of.old ≡ length self.now.entries.now }
        requires start_in { start < length self.now.entries.now }
        requires number { f < no_face }
        requires kept { KeepsMarks (face_images (cut 0 self.now.ends.now self.now.entries.now)) (mark_at (with_face of.old)) }
        ensures marked { OnOk result ((i : ℕ) → i < length self.now.entries.now → mark_at (with_face of.new) i
            ≡ (mark_at (with_face of.old) i || same_class (face_classes (cut 0 self.now.ends.now self.now.entries.now)) start i)) }
        ensures numbered { OnOk result (IsNumberedBy no_face of.old of.new f) }
        ensures put { OnOk result (ArePutTwins (cut 0 self.now.ends.now self.now.entries.now) self.now.rank.now self.now.twins.now of.old of.new arcs.old.items arcs.new.items) }
    {
        self.facts();
        let mut d = start;
        while of[d] == NO_FACE {
            of[d] = f;
            let twin = self.twins[d];
            let head = self.entries[d];
            let tail = self.entries[twin as usize];
            put_upward(self.rank, (tail, head), twin, arcs)?;
            d = after(self.ends, head as usize, twin as usize);
        }
        Ok(())
    }

    // Numbers all faces in `of`, `NO_FACE` for each dart before, in the order of their least darts. Appends the twins
    // of each face's upward darts to `arcs`, and where they end to `arc_ends`, both empty before.
    fn number_all(
        &self,
        of: &mut [u32],
        arcs: &mut Vec<u32>,
        arc_ends: &mut Vec<usize>,
    ) -> Result<(), AllocError>
        requires size { length of.old ≡ length self.now.entries.now }
        requires unset { (i : ℕ) → mark_at (with_face of.old) i ≡ false }
        requires no_arcs { arcs.old.items ≡ [] }
        requires no_ends { arc_ends.old.items ≡ [] }
        ensures { OnOk result (AreNumberedBelow (cut 0 self.now.ends.now self.now.entries.now) self.now.rank.now self.now.twins.now of.new arcs.new.items arc_ends.new.items (length self.now.entries.now)) }
    {
        self.facts();
        for d in 0..self.entries.len() {
            if of[d] != NO_FACE {
                continue;
            }
            let f = arc_ends.len() as u32;
            self.walk_face(of, arcs, d, f)?;
            arc_ends.push(arcs.len())?;
        }
        Ok(())
    }
}

// Replaces each dart of `arcs` by the number of its face, which `of` has.
fn lead_to_faces(arcs: &mut [u32], of: &[u32])
    requires within { (i : ℕ) → i < length arcs.old → slice_index arcs.old i < length of.now }
    ensures { arcs.new ≡ map (λ d. slice_index of.now d) arcs.old }
{
    for i in 0..arcs.len() {
        arcs[i] = of[arcs[i] as usize];
    }
}

/// The numbered faces of a map with ranks, and the dual arcs between them. The tables keep memory for the next map.
#[derive(Drop)]
pub struct FaceTables {
    /// For each dart, by its number, the number of its face.
    pub of: Vec<u32>,
    /// For each face the faces on the right of the upward edges that have it on their left.
    pub arcs: ItemLists<u32>,
}

impl FaceTables {
    /// Returns tables of no map. They take no memory.
    pub fn new(alloc: Global) -> FaceTables {
        FaceTables {
            of: Vec::new(alloc),
            arcs: ItemLists::new(alloc),
        }
    }
}

/// Numbers the faces of a map, and lists for each those on the right of its upward edges. The map is given by its
/// concatenated lists, `entries` with `ends`, by the `twins` of its darts, and by the `rank` of each vertex. It reuses
/// the memory of `tables`, and fails only when out of memory. The time is linear in the darts.
pub fn number_faces(
    tables: FaceTables,
    entries: &[u16],
    ends: &[usize],
    twins: &[u32],
    rank: &[u16],
) -> Result<FaceTables, AllocError>
    requires darts { AreDarts entries.now ends.now twins.now }
    requires ranks { length rank.now ≡ length ends.now }
    ensures numbers { IfOk result (λ made. AreFaceNumbers (cut 0 ends.now entries.now) made.of.items (length made.arcs)) }
    ensures arcs { IfOk result (λ made. AreFaceArcs (cut 0 ends.now entries.now) rank.now made.of.items (length made.arcs) made.arcs) }
    ensures few { IfOk result (λ made. length made.arcs < 2 ^ 32) }
{
    let mut of = tables.of;
    of.clear();
    of.resize(entries.len(), NO_FACE)?;
    let (mut arcs, mut arc_ends) = tables.arcs.into_parts();
    arcs.clear();
    arc_ends.clear();
    let darts = RankedDarts {
        entries,
        ends,
        twins,
        rank,
    };
    darts.number_all(&mut of, &mut arcs, &mut arc_ends)?;
    lead_to_faces(&mut arcs, &of);
    Ok(FaceTables {
        of,
        arcs: ItemLists::from_parts(arcs, arc_ends),
    })
}
