//! One pass over rotation lists that finds the twins of their darts by threads: chains of the darts with one head.
//!
//! The darts with one head are linked to a thread, so that those that lead to a vertex are at hand when its own list
//! comes up. The newest dart of each head tells whether a list holds a number twice. Whatever the threads say is
//! tested before it is written. Where they do not lead to a twin the pass gives up: it may answer that lists are a
//! simple map, and never that they are none.
ghost use Rattle.std.specs.Prelude.{◌≡◌, ◌+◌, ◌^◌, ◌<◌, ◌≤◌, ℕ, length, slice_index, All};
ghost use Rattle.std.specs.Bool.{OnTrue};
ghost use Rattle.map_lists.specs.Cuts.{joined};
ghost use Rattle.simple_maps.specs.Tables.{AreSlots};
ghost use Rattle.simple_maps.specs.Pass.{IsSimpleList, IsPlaced, AreMutual};

use map_lists::Rotations;

/// A slot of a dart keeps its tail, the number of its twin, and what follows from its own number.
pub trait DartSlot: Copy {
    ghost tail_of: { Self → ℕ };

    ghost twin_of: { Self → ℕ };

    ghost IsInLine: { Self → ℕ → Type 0 };

    /// Makes the slot of dart number `place`, from `tail` and with this twin.
    fn new(tail: u16, twin: u32, place: u32) -> Self
        requires few { place < 16777216 }
        ensures tail { tail_of result ≡ tail }
        ensures twin { twin_of result ≡ twin }
        ensures line { IsInLine result place };
}

// A number above that of each dart: it stands where a twin is not known.
pub(crate) const NO_PLACE: u32 = 1 << 24;

// The thread (a number that stands for an entry) of the entry at index 0: that of the entry at index d is d more.
const FIRST_PLACE: u32 = NO_PLACE + 1;

// Returns the index of the entry for which the thread `link` stands, `FIRST_PLACE` less, or one out of range.
fn place_named(link: u32) -> usize {
    link.wrapping_sub(FIRST_PLACE) as usize
}

// Says whether all entries are below `n`.
pub(crate) fn are_below(entries: &[u16], n: usize) -> bool
    ensures { OnTrue result (All (λ u. u < n) entries.now) }
{
    let mut greatest = 0;
    for u in entries {
        greatest = greatest.max(*u);
    }
    (greatest as usize) < n
}

// Says whether each entry of `twins` names a dart. Only true is promised.
fn are_paired(twins: &[u32]) -> bool
    ensures { OnTrue result (All (λ t. t < 16777216) twins.now) }
{
    let mut joined = 0;
    for twin in twins {
        joined |= *twin;
    }
    joined < NO_PLACE
}

// The list of `v`: the part `start..end` of the entries of all lists. `before` is the thread of earlier darts to `v`.
#[derive(Clone, Copy)]
struct ListPart<'a> {
    entries: &'a [u16],
    start: usize,
    end: usize,
    v: u16,
    before: u32,
    ghost order: { start ≤ end },
    ghost within: { end ≤ length entries.now },
    ghost few: { length entries.now < 16777216 },
}

impl ListPart<'_> {
    // Writes for each dart of the list, in `twins`, the thread of the last earlier dart with its head, and makes it the
    // newest of that head in `newest`. A thread is a number from `NO_PLACE` (none) on, so what is written names no twin
    // yet. Sets the list's entries in `tails` to `v`. Returns false where the list holds a number twice, or `v`.
    #[inline(always)]
    fn thread(&self, tails: &mut [u16], twins: &mut [u32], newest: &mut [u32]) -> bool
        requires tails { length tails.old ≡ length self.now.entries.now }
        requires twins { length twins.old ≡ length self.now.entries.now }
        requires v_in { self.now.v < length newest.old }
        requires numbers { All (λ u. u < length newest.old) self.now.entries.now }
        requires unset { All (λ m. 16777216 ≤ m) newest.old }
        ensures unset { All (λ m. 16777216 ≤ m) newest.new }
        ensures list { OnTrue result (IsSimpleList self.now.entries.now self.now.start self.now.end self.now.v) }
        ensures placed { OnTrue result (IsPlaced tails.old twins.old tails.new twins.new self.now.start self.now.end self.now.v) }
    {
        let base = FIRST_PLACE + self.start as u32;
        newest[self.v as usize] = base;
        for d in self.start..self.end {
            let u = self.entries[d];
            let older = newest[u as usize];
            if older >= base {
                return false;
            }
            tails[d] = self.v;
            twins[d] = older;
            newest[u as usize] = FIRST_PLACE + d as u32;
        }
        true
    }

    // Pairs in `twins` the darts to `v` from earlier lists with the darts back in this list, which `newest` has by
    // their heads. It follows their thread from `before`, each dart to the last earlier one, and stops where that leads
    // to no twin.
    #[inline(always)]
    fn pair(&self, tails: &[u16], twins: &mut [u32], newest: &[u32])
        requires tails { length tails.now ≡ length self.now.entries.now }
        requires twins { length twins.old ≡ length self.now.entries.now }
        requires before { (d : ℕ) → d < self.now.start → slice_index tails.now d < length newest.now }
        requires here { (d : ℕ) → self.now.start ≤ d → d < self.now.end → slice_index tails.now d ≡ self.now.v }
        requires pairs { AreMutual self.now.entries.now tails.now twins.old self.now.end }
        ensures { AreMutual self.now.entries.now tails.now twins.new self.now.end }
    {
        let mut bound = self.start;
        let mut d = place_named(self.before);
        'along: while d < bound {
            let tail = tails[d];
            let twin = place_named(newest[tail as usize]);
            if twin < self.start
                || twin >= self.end
                || self.entries[twin] != tail
                || self.entries[d] != self.v
            {
                return;
            }
            let link = twins[d];
            twins[d] = twin as u32;
            twins[twin] = d as u32;
            bound = d;
            d = place_named(link);
        }
    }
}

// Makes each entry of `newest` `NO_PLACE`: no vertex has a thread of darts.
fn unthread(newest: &mut [u32])
    ensures { All (λ m. 16777216 ≤ m) newest.new }
{
    for v in 0..newest.len() {
        newest[v] = NO_PLACE;
    }
}

// Says whether the pass finds `lists` to be a simple map, and then writes the `tails` and `twins` of their darts.
// `newest`, with an entry for each vertex, is scratch space.
#[inline(never)]
pub(crate) fn finds_twins(
    lists: &Rotations,
    tails: &mut [u16],
    twins: &mut [u32],
    newest: &mut [u32],
) -> bool
    requires some_list { 0 < length lists.now }
    requires few { length (joined lists.now) < 16777216 }
    requires tails { length tails.old ≡ length (joined lists.now) }
    requires twins { length twins.old ≡ length (joined lists.now) }
    requires newest { length newest.old ≡ length lists.now }
    ensures { OnTrue result (AreSlots lists.now tails.new twins.new) }
{
    lists.facts();
    let entries = lists.entries();
    let ends = lists.ends();
    if !are_below(entries, ends.len()) {
        return false;
    }
    unthread(newest);
    let mut start = 0;
    for v in 0..ends.len() {
        let end = ends[v];
        let list = ListPart {
            entries,
            start,
            end,
            v: v as u16,
            before: newest[v],
        };
        if !list.thread(tails, twins, newest) {
            return false;
        }
        list.pair(tails, twins, newest);
        start = end;
    }
    are_paired(twins)
}
