//! The vertex lines of a figure, or the lines of branches and paths of a witness, read one by one.
ghost use Rattle.std.specs.Prelude.{◌≡◌, ◌+◌, ◌<◌, [], false, length, IfOk, IfSome, nat_lt};
ghost use Rattle.std.specs.Bool.{OnTrue};
ghost use Rattle.figure_text.specs.Words.{words_of};
ghost use Rattle.figure_text.specs.Drafts.{with_row};
ghost use Rattle.figure_text.specs.Reading.{Judges, IsRow, RowInRange};
ghost use Rattle.line_inputs.specs.Heads.{head_kind};
ghost use Rattle.line_inputs.specs.Steps.{no_lines};

use crate::figure_lines::boxed::Held;
use crate::figure_lines::first_line::Head;
use figure_text::{Draft, Judged, Kind, VertexLine, Word};
use map_lists::ItemLists;
use pg_plane::{Ints, Points};
use std::alloc::{AllocError, Global};

/// A figure of which some vertex lines, or some lines of branches and paths, have been read.
#[derive(Drop)]
pub struct Rows {
    /// The content of the first line.
    pub head: Head,
    /// How many such lines the figure has.
    pub n: usize,
    /// The content of those lines.
    pub draft: Draft,
}

// Returns no numbers, with room for `n` if there is memory.
fn room_for_numbers(alloc: Global, n: usize) -> Ints
    ensures { result ≡ [] }
{
    match Ints::with_capacity(alloc, n) {
        Ok(list) => list,
        Err(_) => Ints::new(alloc),
    }
}

// Returns no points, with room for `n` if there is memory.
fn room_for_points(alloc: Global, n: usize) -> Points
    ensures { result ≡ [] }
{
    match Points::with_capacity(alloc, n) {
        Ok(points) => points,
        Err(_) => Points::new(alloc),
    }
}

// Returns no lists, with room for `n` of six entries each if there is memory.
fn room_for_lists(alloc: Global, n: usize) -> ItemLists<u16>
    ensures { result ≡ [] }
{
    match ItemLists::with_capacity(alloc, n.saturating_mul(6), n) {
        Ok(lists) => lists,
        Err(_) => ItemLists::new(alloc),
    }
}

// Returns how many points, how many heights and ends, and how many upper sides `n` lines of this `kind` have.
fn sizes(kind: Kind, n: usize) -> (usize, usize, usize) {
    match kind {
        Kind::Grid(_) => (n, 0, 0),
        Kind::Bars => (0, n, 0),
        Kind::Rects => (0, n, n),
        Kind::Witness(_) => (0, 0, 0),
    }
}

impl Rows {
    /// Makes a figure of which only the first line has come, with the content `head`; `n` more lines are due. It has
    /// room for them, of six entries each, as far as there is memory.
    pub fn new(alloc: Global, head: Head, n: usize) -> Rows
        ensures { result ≡ record { head = head; n = n; draft = no_lines } }
    {
        let (points, bars, uppers) = sizes(head.kind(), n);
        Rows {
            head,
            n,
            draft: Draft {
                lists: room_for_lists(alloc, n),
                points: room_for_points(alloc, points),
                y: room_for_numbers(alloc, bars),
                x1: room_for_numbers(alloc, bars),
                x2: room_for_numbers(alloc, bars),
                y2: room_for_numbers(alloc, uppers),
            },
        }
    }

    // Judges `line` as the next of this figure, of which at least one is due. Returns the verdict, or None when out of
    // memory. Appends the content of a good line to the draft. `found` is scratch space for words.
    fn row(&mut self, found: &mut Vec<Word>, line: &[u8]) -> Option<Judged>
        requires { length self.old.draft.lists < self.old.n }
        ensures judged { IfSome result (λ judged. Judges (IsRow (head_kind self.old.head) (length self.old.draft.lists + 1) (words_of line.now))
            (RowInRange (head_kind self.old.head) (words_of line.now)) judged
            × (judged ≡ Judged.Good → self.new.draft ≡ with_row (head_kind self.old.head) self.old.draft (words_of line.now))) }
        ensures same { (self.new.head ≡ self.old.head) × (self.new.n ≡ self.old.n) }
    {
        let kind = self.head.kind();
        let place = self.draft.lists.len() + 1;
        let row = VertexLine { kind, place, line };
        row.judge(found, &mut self.draft)
    }

    // Says whether at least two more lines of this figure are due, where one is. Only a yes is promised.
    fn are_two_due(&self) -> bool
        requires { length self.now.draft.lists < self.now.n }
        ensures { OnTrue result (length self.now.draft.lists + 1 < self.now.n) }
    {
        let n = self.n;
        self.draft.lists.len() + 1 < n
    }

    // Appends `line`, the next one due, to the draft if a quick test finds it good, and says so. False says no more,
    // and leaves the draft unchanged. `found` is scratch space for words. It fails only when out of memory.
    #[inline(always)]
    fn quick(&mut self, found: &mut Vec<Word>, line: &[u8]) -> Result<bool, AllocError>
        requires { length self.old.draft.lists < self.old.n }
        ensures good { IfOk result (λ good. OnTrue good (IsRow (head_kind self.old.head) (length self.old.draft.lists + 1) (words_of line.now)
            × RowInRange (head_kind self.old.head) (words_of line.now)
            × (self.new.draft ≡ with_row (head_kind self.old.head) self.old.draft (words_of line.now)))) }
        ensures bad { IfOk result (λ good. good ≡ false → self.new.draft ≡ self.old.draft) }
        ensures same { (self.new.head ≡ self.old.head) × (self.new.n ≡ self.old.n) }
    {
        let kind = self.head.kind();
        let place = self.draft.lists.len() + 1;
        let row = VertexLine { kind, place, line };
        row.quick(found, &mut self.draft)
    }
}

impl Held<Rows> {
    /// Judges `line` as the next of this figure, of which at least one is due. Returns the verdict, or None when out of
    /// memory. Appends the content of a good line to the draft. `found` is scratch space for words.
    pub fn row(&mut self, found: &mut Vec<Word>, line: &[u8]) -> Option<Judged>
        requires { length self.old.draft.lists < self.old.n }
        ensures judged { IfSome result (λ judged. Judges (IsRow (head_kind self.old.head) (length self.old.draft.lists + 1) (words_of line.now))
            (RowInRange (head_kind self.old.head) (words_of line.now)) judged
            × (judged ≡ Judged.Good → self.new.draft ≡ with_row (head_kind self.old.head) self.old.draft (words_of line.now))) }
        ensures same { (self.new.head ≡ self.old.head) × (self.new.n ≡ self.old.n) }
    {
        self.inside.row(found, line)
    }

    /// Appends `line`, the next one due, to the draft if a quick test finds it good, and says so. False says no more,
    /// and leaves the draft unchanged. `found` is scratch space for words. It fails only when out of memory.
    #[inline(always)]
    pub fn quick(&mut self, found: &mut Vec<Word>, line: &[u8]) -> Result<bool, AllocError>
        requires { length self.old.draft.lists < self.old.n }
        ensures good { IfOk result (λ good. OnTrue good (IsRow (head_kind self.old.head) (length self.old.draft.lists + 1) (words_of line.now)
            × RowInRange (head_kind self.old.head) (words_of line.now)
            × (self.new.draft ≡ with_row (head_kind self.old.head) self.old.draft (words_of line.now)))) }
        ensures bad { IfOk result (λ good. good ≡ false → self.new.draft ≡ self.old.draft) }
        ensures same { (self.new.head ≡ self.old.head) × (self.new.n ≡ self.old.n) }
    {
        self.inside.quick(found, line)
    }

    /// Says whether at least two more lines of this figure are due, where one is. Only a yes is promised.
    pub fn are_two_due(&self) -> bool
        requires { length self.now.draft.lists < self.now.n }
        ensures { OnTrue result (length self.now.draft.lists + 1 < self.now.n) }
    {
        self.inside.are_two_due()
    }

    /// Says whether at least one more line of this figure is due, but for the line of columns.
    pub fn is_due(&self) -> bool
        ensures { result ≡ nat_lt (length self.now.draft.lists) self.now.n }
    {
        self.inside.draft.lists.len() < self.inside.n
    }
}
