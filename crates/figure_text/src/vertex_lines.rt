//! The vertex lines of a figure: judges one line, and appends what it gives to the draft of the figure.
ghost use Rattle.std.specs.Prelude.{◌≡◌, ◌<◌, ◌≤◌, ◌++◌, [], ◌∷◌, ℕ, ℤ, false, map, All, OnOk, IfOk, IfSome};
ghost use Rattle.std.specs.Bool.{OnTrue};
ghost use Rattle.figure_text.specs.Words.{words_of};
ghost use Rattle.figure_text.specs.Lines.{vertex_of, signed_value, integer_of, IsVertex};
ghost use Rattle.figure_text.specs.Reading.{Judges, IsRow, RowInRange};
ghost use Rattle.figure_text.specs.Drafts.{with_values, with_row};

use crate::front_pieces::{is_front, pieces};
use crate::line_shapes::{
    Judged, Kind, MOST_COORDINATE, is_witness, judged_vertex_line, size_of, word, words_from,
};
use crate::line_words::{Signed, Word, fill_front, fill_known};
use crate::plain_numbers::push_plain;
use crate::vertex_fronts::LineFront;
use map_lists::ItemLists;
use pg_plane::{Ints, Point, Points};
use std::alloc::{AllocError, Global};

/// Holds what the lines of a figure's vertices gave. Of a witness it holds a list of branches, then one for each path.
#[derive(Drop)]
pub struct Draft {
    pub lists: ItemLists<u16>,
    pub points: Points,
    /// The height of each bar, or the lower side of each rectangle.
    pub y: Ints,
    pub x1: Ints,
    pub x2: Ints,
    /// The upper side of each rectangle.
    pub y2: Ints,
}

/// The line of a vertex, or of branches or a path, without the byte 10 that closes it.
#[derive(Clone, Copy)]
pub struct VertexLine<'a> {
    /// The kind of its figure.
    pub kind: Kind,
    /// Its number among the lines after the first, from 1.
    pub place: usize,
    /// Its bytes.
    pub line: &'a [u8],
}

// Returns the vertex, from 0, that `word`, a number from 1 to 65535, names.
fn vertex(word: Word) -> u16
    requires { IsVertex word }
    ensures { result ≡ vertex_of word }
{
    (size_of(word) - 1) as u16
}

// Appends to `lists` the list of the vertices that `words` name.
fn push_vertices(words: &[Word], lists: &mut ItemLists<u16>) -> Result<(), AllocError>
    requires { All (λ w. IsVertex w) words.now }
    ensures { OnOk result (lists.new ≡ lists.old ++ map vertex_of words.now ∷ []) }
{
    lists.open()?;
    for k in 0..words.len() {
        lists.append(vertex(words[k]))?;
    }
    Ok(())
}

/// Returns the number with the sign and the size of `z`, where a size above 2^20 becomes 2^20.
#[inline(always)]
pub fn signed_number(z: Signed) -> i32
    ensures { result ≡ signed_value z }
{
    let size = if z.size < MOST_COORDINATE {
        z.size
    } else {
        MOST_COORDINATE
    };
    if z.negative {
        -(size as i32)
    } else {
        size as i32
    }
}

/// Returns the number that `word` is, held within -2^20 to 2^20, and 0 for any other word.
#[inline(always)]
pub fn integer(word: Word) -> i32
    ensures { result ≡ integer_of word }
{
    match word {
        Word::Number(z) => signed_number(z),
        Word::Closing(z) => signed_number(z),
        _ => 0,
    }
}

/// The numbers of a line, each at the index of its word.
trait Values {
    /// The number at the index of a word.
    ghost value: { Self → ℕ → ℤ };

    /// There is a number at the index of a word.
    ghost Has: { Self → ℕ → Type 0 };

    /// Returns the number that word `i` of the line is.
    fn value_at(&self, i: usize) -> i32
        requires { Has self.now i }
        ensures { result ≡ value self.now i };
}

impl Values for Vec<Word> {
    ghost use Rattle.figure_text.specs.Drafts.{integer_in};

    ghost value = { λ words i. integer_in i words.items };

    ghost Has = { λ words i. Unit {0} };

    // Returns the number that word `i` is, held within -2^20 to 2^20; or 0 where it is none or there is no word `i`.
    fn value_at(&self, i: usize) -> i32 {
        integer(word(self, i))
    }
}

impl Values for LineFront {
    ghost use Rattle.std.specs.Prelude.{◌<◌, length, slice_index};
    ghost use Rattle.figure_text.specs.Plain.{plain_value};

    ghost value = { λ front i. plain_value (slice_index front.numbers i) };

    ghost Has = { λ front i. i < length front.numbers };

    // Returns the number kept for word `i` of the front, which has fewer than eight words.
    #[inline(always)]
    fn value_at(&self, i: usize) -> i32 {
        self.number(i)
    }
}

// Appends to `draft` the numbers before the vertices, which `values` has, of a line of a figure of this `kind`. It
// fails only when out of memory.
#[inline(always)]
fn push_values<V: Values>(kind: Kind, values: &V, draft: &mut Draft) -> Result<(), AllocError>
    requires { (i : ℕ) → i < 7 → V.Has values.now i }
    ensures { OnOk result (draft.new ≡ with_values kind draft.old (V.value values.now)) }
{
    match kind {
        Kind::Grid(_) => draft.points.push(point(values))?,
        Kind::Bars => {
            draft.y.push(values.value_at(2))?;
            draft.x1.push(values.value_at(4))?;
            draft.x2.push(values.value_at(5))?;
        }
        Kind::Rects => {
            draft.x1.push(values.value_at(2))?;
            draft.x2.push(values.value_at(3))?;
            draft.y.push(values.value_at(5))?;
            draft.y2.push(values.value_at(6))?;
        }
        Kind::Witness(_) => {}
    }
    Ok(())
}

// Returns the point that the numbers `values` of a line of a straight-line drawing give.
#[inline(always)]
fn point<V: Values>(values: &V) -> Point
    requires { V.Has values.now 2 × V.Has values.now 3 }
    ensures { result ≡ record { x = V.value values.now 2; y = V.value values.now 3 } }
{
    Point {
        x: values.value_at(2),
        y: values.value_at(3),
    }
}

// Appends to `draft` the list and the numbers that the `words` of a good line of a figure of this `kind` give. It fails
// only when out of memory.
fn push_row(kind: Kind, words: &Vec<Word>, draft: &mut Draft) -> Result<(), AllocError>
    requires { RowInRange kind words.now.items }
    ensures { OnOk result (draft.new ≡ with_row kind draft.old words.now.items) }
{
    push_vertices(words_from(words, pieces(kind).len()), &mut draft.lists)?;
    push_values(kind, words, draft)
}

impl VertexLine<'_> {
    // Appends to `draft` what this line gives, if it is found good, and says so. The words before its neighbours go to
    // `found`, and its neighbours have to be plainly written. False leaves the draft as it was, and promises no more.
    fn push_by_words(&self, found: &mut Vec<Word>, draft: &mut Draft) -> Result<bool, AllocError>
        ensures good { IfOk result (λ good. OnTrue good (IsRow self.now.kind self.now.place (words_of self.now.line.now)
            × RowInRange self.now.kind (words_of self.now.line.now)
            × (draft.new ≡ with_row self.now.kind draft.old (words_of self.now.line.now)))) }
        ensures bad { IfOk result (λ good. good ≡ false → draft.new ≡ draft.old) }
    {
        let pieces = pieces(self.kind);
        let at = fill_front(self.line, pieces.len(), found)?;
        if is_witness(self.kind) || !is_front(pieces, self.place, found) {
            return Ok(false);
        }
        if !push_plain(self.line, at, &mut draft.lists)? {
            return Ok(false);
        }
        push_values(self.kind, found, draft)?;
        Ok(true)
    }

    /// Appends to `draft` what this line gives, if it is found good at sight, and says so. False leaves the draft as it
    /// was, and the line may still be good. `found` is scratch space for words. It fails only when out of memory.
    #[inline(always)]
    pub fn quick(&self, found: &mut Vec<Word>, draft: &mut Draft) -> Result<bool, AllocError>
        ensures good { IfOk result (λ good. OnTrue good (IsRow self.now.kind self.now.place (words_of self.now.line.now)
            × RowInRange self.now.kind (words_of self.now.line.now)
            × (draft.new ≡ with_row self.now.kind draft.old (words_of self.now.line.now)))) }
        ensures bad { IfOk result (λ good. good ≡ false → draft.new ≡ draft.old) }
    {
        let row = *self;
        let mut front = LineFront::new();
        if is_witness(self.kind) || !self.read_front(&mut front) {
            return row.push_by_words(found, draft);
        }
        if !push_plain(self.line, front.end, &mut draft.lists)? {
            return Ok(false);
        }
        push_values(self.kind, &front, draft)?;
        Ok(true)
    }

    /// Judges this line, by its words where it is not found good at sight. Returns the verdict, or None when out of
    /// memory, and appends to `draft` what a good line gives. `found` is scratch space for words.
    #[inline(never)]
    pub fn judge(&self, found: &mut Vec<Word>, draft: &mut Draft) -> Option<Judged>
        ensures { IfSome result (λ judged. Judges (IsRow self.now.kind self.now.place (words_of self.now.line.now)) (RowInRange self.now.kind (words_of self.now.line.now)) judged
            × (judged ≡ Judged.Good → draft.new ≡ with_row self.now.kind draft.old (words_of self.now.line.now))) }
    {
        match self.quick(found, draft) {
            Ok(true) => return Some(Judged::Good),
            Ok(false) => {}
            Err(_) => return None,
        }
        match fill_known(self.line, found) {
            Ok(false) => Some(Judged::Bad),
            Ok(true) => match judged_vertex_line(self.kind, self.place, found) {
                Judged::Good => match push_row(self.kind, found, draft) {
                    Ok(()) => Some(Judged::Good),
                    Err(_) => None,
                },
                Judged::Bad => Some(Judged::Bad),
                Judged::Limit => Some(Judged::Limit),
            },
            Err(_) => None,
        }
    }
}
