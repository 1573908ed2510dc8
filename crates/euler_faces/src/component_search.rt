//! Numbers the components of a map, by a breadth-first search along a queue.
ghost use Rattle.std.specs.Prelude.{◌≡◌, ◌<◌, ◌≤◌, ◌||◌, ◌≢◌, ℕ, List, Bool, true, false, length, slice_index};
ghost use Rattle.classes.specs.Classes.{same_class};
ghost use Rattle.classes.proofs.Classes.{Together};
ghost use Rattle.map_lists.specs.Cuts.{cut, AreCuts};
ghost use Rattle.map_theory.specs.Maps.{IsSimpleMap, component_count, component_classes};
ghost use Rattle.euler_faces.specs.Numbers.{mark_at};
ghost use Rattle.euler_faces.specs.Stored.{lists_of};
ghost use Rattle.euler_faces.specs.Search.{AllMarked, AreQueued, IsSearching, IsNumbered, component_number, marks_of, None_open};

use crate::stored_map::StoredMap;

/// Stands in place of the number of a vertex that was not met yet.
pub const UNMET: u16 = u16::MAX;

// Returns how many vertices are met anew where one has the number `seen`: 1 for `UNMET`, and else none.
#[inline(always)]
fn met_anew(seen: u16) -> usize
    ensures one { seen ≡ 65535 → result ≡ 1 }
    ensures none { seen ≢ 65535 → result ≡ 0 }
    ensures few { result ≤ 1 }
{
    if seen == UNMET { 1 } else { 0 }
}

// Returns `number` in place of `UNMET`, and else the number `seen`.
#[inline(always)]
fn number_after(seen: u16, number: u16) -> u16
    ensures unmet { seen ≡ 65535 → result ≡ number }
    ensures met { seen ≢ 65535 → result ≡ seen }
{
    if seen == UNMET { number } else { seen }
}

impl StoredMap<'_> {
    // Gives `number` to the neighbours of `v` that have none in `numbers`, and appends them to the `filled` first
    // entries of `queue`. Returns how many entries there are then. Each neighbour is written there, and stays where it
    // had no number.
    fn push_neighbours(
        &self,
        v: usize,
        number: u16,
        numbers: &mut [u16],
        queue: &mut [u16],
        filled: usize,
    ) -> usize
        requires v_in { v < length self.now.ends.now }
        requires is_number { number < 65535 }
        requires queued { AreQueued numbers.old queue.old filled (length self.now.ends.now) }
        ensures search { (old : List Bool) (next start : ℕ) → next ≤ filled → Together (component_classes (lists_of self.now)) start v
            → IsSearching (lists_of self.now) old (marks_of numbers.old) queue.old next filled start (λ x. x ≡ v)
            → IsSearching (lists_of self.now) old (marks_of numbers.new) queue.new next result start None_open }
        ensures numbered { IsNumbered numbers.old numbers.new number }
        ensures grows { filled ≤ result }
        ensures queued { AreQueued numbers.new queue.new result (length self.now.ends.now) }
    {
        self.facts();
        let map = *self;
        let mut filled = filled;
        for i in map.start_of(v)..map.ends[v] {
            let w = map.entries[i];
            let seen = numbers[w as usize];
            numbers[w as usize] = number_after(seen, number);
            queue[filled] = w;
            filled += met_anew(seen);
        }
        filled
    }

    // Sets to `number` the entries in `numbers` of the component of `start`, which is not numbered yet. Appends its
    // vertices to the first `filled` entries of `queue`: the vertices numbered so far, of whole components. Returns how
    // many entries there are then.
    fn number_component(
        &self,
        start: u16,
        number: u16,
        numbers: &mut [u16],
        queue: &mut [u16],
        filled: usize,
    ) -> usize
        requires start_in { start < length self.now.ends.now }
        requires is_number { number < 65535 }
        requires queued { AreQueued numbers.old queue.old filled (length self.now.ends.now) }
        requires unmarked { mark_at (marks_of numbers.old) start ≡ false }
        requires kept { (u : ℕ) → u < length self.now.ends.now → mark_at (marks_of numbers.old) u ≡ true → AllMarked (lists_of self.now) (marks_of numbers.old) u }
        ensures marked { (i : ℕ) → i < length self.now.ends.now →
            mark_at (marks_of numbers.new) i ≡ (mark_at (marks_of numbers.old) i || same_class (component_classes (lists_of self.now)) start i) }
        ensures numbered { IsNumbered numbers.old numbers.new number }
        ensures queued { AreQueued numbers.new queue.new result (length self.now.ends.now) }
    {
        self.facts();
        numbers[start as usize] = number;
        queue[filled] = start;
        let mut next = filled;
        let mut filled = filled + 1;
        while next < filled {
            if filled == self.ends.len() {
                return filled;
            }
            let v = queue[next] as usize;
            next += 1;
            filled = self.push_neighbours(v, number, numbers, queue, filled);
        }
        filled
    }
}

/// Numbers the components of lists that are a simple map by their least vertices, and returns how many there are. The
/// lists are concatenated in `entries`, each up to its end in `ends`.
///
/// Writes the component's number, from 0, of each vertex to `numbers`, whose entries have to be `UNMET`. It has an entry
/// for each vertex. `queue` is scratch space, with one entry more at least. The time is linear in the entries.
pub fn number_components(
    entries: &[u16],
    ends: &[usize],
    numbers: &mut [u16],
    queue: &mut [u16],
) -> u16
    requires cuts { AreCuts 0 ends.now (length entries.now) }
    requires simple { IsSimpleMap (cut 0 ends.now entries.now) }
    requires few { length ends.now < 4096 }
    requires marks { length numbers.old ≡ length ends.now }
    requires room { length ends.now < length queue.old }
    requires unset { (u : ℕ) → mark_at (marks_of numbers.old) u ≡ false }
    ensures count { result ≡ component_count (cut 0 ends.now entries.now) }
    ensures few { result ≤ length ends.now }
    ensures numbers { (u : ℕ) → u < length ends.now → slice_index numbers.new u ≡ component_number (cut 0 ends.now entries.now) u }
{
    let map = StoredMap { entries, ends };
    let mut count = 0;
    let mut filled = 0;
    for v in 0..ends.len() {
        if filled == ends.len() {
            return count;
        }
        if numbers[v] == UNMET {
            filled = map.number_component(v as u16, count, numbers, queue, filled);
            count += 1;
        }
    }
    count
}
