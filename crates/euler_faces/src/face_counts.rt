//! Counts the faces of stored lists: at once where all are triangles, else by walks that overwrite the twins of darts.
ghost use Rattle.std.specs.Prelude.{◌≡◌, ◌+◌, ◌≤◌, ◌<◌, ◌||◌, ℕ, length};
ghost use Rattle.std.specs.Bool.{OnTrue};
ghost use Rattle.classes.specs.Classes.{class_count, same_class};
ghost use Rattle.classes.proofs.Marks.{KeepsMarks};
ghost use Rattle.map_theory.specs.Maps.{darts, face_images, face_classes, component_count, isolated_count};
ghost use Rattle.simple_maps.specs.Tables.{AreTwins};
ghost use Rattle.euler_faces.specs.Corners.{AreCornersBelow, AreNext};
ghost use Rattle.euler_faces.specs.Stored.{lists_of};
ghost use Rattle.euler_faces.specs.Slots.{walked, HaveTwins};

use crate::stored_map::{StoredMap, WALKED};

impl StoredMap<'_> {
    // Writes `WALKED` into `twins` at each dart of the face of `start`. The faces walked so far are walked whole.
    fn walk_face(&self, twins: &mut [u32], start: usize)
        requires long { length twins.old ≡ length self.now.entries.now }
        requires twins { HaveTwins (lists_of self.now) twins.old }
        requires start_in { start < length self.now.entries.now }
        requires kept { KeepsMarks (face_images (lists_of self.now)) (walked twins.old) }
        ensures twins { HaveTwins (lists_of self.now) twins.new }
        ensures walked { (i : ℕ) → i < length self.now.entries.now → walked twins.new i
            ≡ (walked twins.old i || same_class (face_classes (lists_of self.now)) start i) }
    {
        self.facts();
        let map = *self;
        let mut d = start;
        while twins[d] != WALKED {
            let twin = twins[d] as usize;
            twins[d] = WALKED;
            d = map.after(map.entries[d] as usize, twin);
        }
    }

    // Says whether the lists have as many entries as a triangulation and all faces are found to be triangles, by the
    // `twins` of the darts. At each entry, the entry before it follows the list's vertex in the entry's own list.
    fn are_triangles(&self, twins: &[u32]) -> bool
        requires { AreTwins (darts (lists_of self.now)) twins.now (length (darts (lists_of self.now))) }
        ensures { OnTrue result (AreCornersBelow (lists_of self.now) (length self.now.entries.now)) }
    {
        self.facts();
        let map = *self;
        if map.entries.len().wrapping_add(12) != map.ends.len().wrapping_mul(6) {
            return false;
        }
        let mut start = 0;
        for v in 0..map.ends.len() {
            let behind = map.ends[v];
            if behind <= start {
                return false;
            }
            let mut before = map.entries[behind - 1];
            for d in start..behind {
                let u = map.entries[d];
                if map.entries[map.after(u as usize, twins[d] as usize)] != before {
                    return false;
                }
                before = u;
            }
            start = behind;
        }
        true
    }

    // Writes to `next` for each dart the dart after it in its list, cyclically. Returns false at an empty list.
    #[inline(always)]
    fn write_next(&self, next: &mut [u32]) -> bool
        requires { length next.old ≡ length self.now.entries.now }
        ensures { OnTrue result (AreNext self.now.ends.now next.new) }
    {
        self.facts();
        let map = *self;
        for d in 0..next.len() {
            next[d] = d as u32 + 1;
        }
        let mut start: usize = 0;
        for v in 0..map.ends.len() {
            let behind = map.ends[v];
            if behind <= start {
                return false;
            }
            next[behind - 1] = start as u32;
            start = behind;
        }
        true
    }

    // Says whether no list is empty and all faces are found to be triangles, by the `twins` of the darts, in loops over
    // all darts that have no branch. From each dart, the one after it, its twin and the one after that lead back to the
    // dart's head. `next` is scratch space.
    #[inline(never)]
    pub(crate) fn has_triangles(&self, twins: &[u32], next: &mut [u32]) -> bool
        requires twins { AreTwins (darts (lists_of self.now)) twins.now (length (darts (lists_of self.now))) }
        requires next { length next.old ≡ length self.now.entries.now }
        ensures { OnTrue result (AreCornersBelow (lists_of self.now) (length self.now.entries.now)) }
    {
        self.facts();
        let map = *self;
        if !map.write_next(next) {
            return false;
        }
        let mut wrong: u16 = 0;
        for d in 0..map.entries.len() {
            let after = next[d] as usize;
            let turned = next[twins[after] as usize] as usize;
            wrong |= map.entries[turned] ^ map.entries[d];
        }
        wrong == 0
    }

    // Returns the most orbits of the face step that the Euler bound allows for `components` and `isolated` vertices.
    #[inline(always)]
    pub(crate) fn most_orbits(&self, components: u16, isolated: u32) -> u32
        requires components { components ≡ component_count (lists_of self.now) }
        requires isolated { isolated ≡ isolated_count (lists_of self.now) }
        ensures { class_count (face_classes (lists_of self.now)) ≤ result }
    {
        self.facts();
        let edges = (self.entries.len() / 2) as u32;
        2 * components as u32 + edges - (self.ends.len() as u32 + isolated)
    }

    // Returns the number of orbits of the face step, which is at most `most`, by the `twins` of the darts. It is a
    // third of the darts where all faces are triangles. Else a walk along each face but the last of `most` overwrites
    // the twins.
    #[inline(always)]
    pub(crate) fn count_orbits(&self, twins: &mut [u32], most: u32) -> u32
        requires twins { AreTwins (darts (lists_of self.now)) twins.old (length (darts (lists_of self.now))) }
        requires most { class_count (face_classes (lists_of self.now)) ≤ most }
        ensures count { result ≡ class_count (face_classes (lists_of self.now)) }
        ensures few { result ≤ length self.now.entries.now }
    {
        self.facts();
        if self.are_triangles(twins) {
            return (self.entries.len() / 3) as u32;
        }
        let mut count = 0;
        for d in 0..self.entries.len() {
            if twins[d] != WALKED {
                count += 1;
                if count == most {
                    return count;
                }
                self.walk_face(twins, d);
            }
        }
        count
    }

    // Returns the number of isolated vertices, by that of `components`. With one component and an edge no list is read.
    pub(crate) fn count_isolated(&self, components: u16) -> u32
        requires { components ≡ component_count (lists_of self.now) }
        ensures count { result ≡ isolated_count (lists_of self.now) }
        ensures few { result ≤ length self.now.ends.now }
    {
        self.facts();
        let map = *self;
        if components == 1 && !map.entries.is_empty() {
            return 0;
        }
        let mut count = 0;
        let mut start = 0;
        for v in 0..map.ends.len() {
            if map.ends[v] == start {
                count += 1;
            }
            start = map.ends[v];
        }
        count
    }
}
