//! Judges the words of a line of a figure: whether they have the shape that is due, and their numbers are in range.
ghost use Rattle.std.specs.Prelude.{ℕ, false, ◌≡◌, ◌↔◌, ◌<◌, ◌≤◌, ◌-◌, length, drop, map, slice_index_or, IsTrue, IfOk, All, if◌then◌else◌};
ghost use Rattle.figure_text.specs.Reading.{Judges, IsRow, RowInRange};
ghost use Rattle.kuratowski.specs.Witnesses.{branch_count, pairs_of};
ghost use Rattle.figure_text.specs.Words.{word_at};
ghost use Rattle.figure_text.specs.Pieces.{is_long as is_long_enough};
ghost use Rattle.figure_text.specs.Lines.{size, is_natural, is_number, is_closing, kind_of, rows_due, row_name, IsInside, IsVertex, IsColumnsLine, ColumnsInRange};

use crate::GridJob;
use crate::front_pieces::{are_within, have_shapes, pieces};
use crate::line_words::{Name, Word};
use kuratowski::Kind as Subdivided;
use map_lists::MOST_VERTICES;

/// The kind of lines that a figure's first line announces.
#[derive(Clone, Copy, PartialEq, Eq)]
pub enum Kind {
    /// Lines of a straight-line drawing.
    Grid(GridJob),
    /// Lines of bars, and one of columns.
    Bars,
    /// Lines of rectangles.
    Rects,
    /// A line of branches, and lines of paths.
    Witness(Subdivided),
}

/// The verdict on a line.
#[derive(Clone, Copy, PartialEq, Eq)]
pub enum Judged {
    /// It does not have the shape that is due.
    Bad,
    /// It has that shape, and a number outside its range.
    Limit,
    /// It has that shape, and its numbers are within their ranges.
    Good,
}

// The greatest absolute value of a coordinate.
pub const MOST_COORDINATE: u32 = pg_plane::MOST_COORDINATE as u32;

// Returns word `i`, or `Other` after the last.
#[inline(always)]
pub fn word(words: &[Word], i: usize) -> Word
    ensures { result ≡ word_at words.now i }
{
    if i < words.len() {
        words[i]
    } else {
        Word::Other
    }
}

// Returns the absolute value of the number that `word` is, and 0 for any other word.
#[inline(always)]
pub fn size_of(word: Word) -> u32
    ensures { result ≡ size word }
{
    match word {
        Word::Number(z) => z.size,
        Word::Closing(z) => z.size,
        _ => 0,
    }
}

// Says whether `word` is a number without a minus.
pub fn is_natural_word(word: Word) -> bool
    ensures { result ≡ is_natural word }
{
    match word {
        Word::Number(z) => !z.negative,
        _ => false,
    }
}

// Says whether `word` is a number.
pub fn is_number_word(word: Word) -> bool
    ensures { result ≡ is_number word }
{
    match word {
        Word::Number(_) => true,
        _ => false,
    }
}

// Says whether `word` is a number before a colon.
pub fn is_closing_word(word: Word) -> bool
    ensures { result ≡ is_closing word }
{
    match word {
        Word::Closing(_) => true,
        _ => false,
    }
}

/// Says whether `word` is the word `name`.
pub fn is_name(word: Word, name: Name) -> bool
    ensures { IsTrue result ↔ (word ≡ Word.Named name) }
{
    match word {
        Word::Named(found) => found == name,
        _ => false,
    }
}

// Returns the words from index `from` on.
pub fn words_from(words: &[Word], from: usize) -> &[Word]
    ensures { result.now ≡ drop from words.now }
{
    if from <= words.len() {
        &words[from..]
    } else {
        &[]
    }
}

// Says whether the absolute value of the number `word` is at most the greatest coordinate. True for other words.
pub fn is_inside(word: Word) -> bool
    ensures { IsTrue result ↔ IsInside word }
{
    size_of(word) <= MOST_COORDINATE
}

// Says whether the number `word` may be that of a vertex: it is from 1 to 65535.
fn is_vertex(word: Word) -> bool
    ensures { IsTrue result ↔ IsVertex word }
{
    1 <= size_of(word) && size_of(word) <= 65535
}

// Says whether `words` have the shape of the line of the columns.
fn is_columns_line(words: &[Word]) -> bool
    ensures { IsTrue result ↔ IsColumnsLine words.now }
{
    is_name(word(words, 0), Name::Columns)
        && words_from(words, 1)
            .iter()
            .all(|word| is_number_word(*word))
}

// Returns the kind of figure that `words`, all those of a first line, announce: the third is the job's. Of a witness
// the fourth is K5 or K33. Returns None for other words.
pub fn job_kind(words: &[Word]) -> Option<Kind>
    ensures { result ≡ kind_of words.now }
{
    match word(words, 2) {
        Word::Named(Name::Shift) => Some(Kind::Grid(GridJob::Shift)),
        Word::Named(Name::Schnyder) => Some(Kind::Grid(GridJob::Schnyder)),
        Word::Named(Name::Convex) => Some(Kind::Grid(GridJob::Convex)),
        Word::Named(Name::Bars) => Some(Kind::Bars),
        Word::Named(Name::Rect) => Some(Kind::Rects),
        Word::Named(Name::Witness) => match word(words, 3) {
            Word::Named(Name::K5) => Some(Kind::Witness(Subdivided::K5)),
            Word::Named(Name::K33) => Some(Kind::Witness(Subdivided::K33)),
            _ => None,
        },
        _ => None,
    }
}

// Returns how many lines of vertices, or of branches and paths, follow the first line `words` of a figure of `kind`.
pub fn line_count(kind: Kind, words: &[Word]) -> usize
    ensures { result ≡ rows_due kind words.now }
{
    match kind {
        Kind::Witness(kind) => kind.path_count() + 1,
        _ => size_of(word(words, 3)) as usize,
    }
}

// Returns the word with which line number `place` after a witness's first line begins, from 1: `branch` or `path`.
pub fn witness_word(place: usize) -> Name
    ensures { result ≡ row_name place }
{
    if place == 1 { Name::Branch } else { Name::Path }
}

/// Says whether `kind` is that of a witness. A no promises that its lines may have any number of neighbours.
pub fn is_witness(kind: Kind) -> bool
    ensures { (place len : ℕ) → result ≡ false → IsTrue (is_long_enough kind place len) }
{
    match kind {
        Kind::Witness(_) => true,
        _ => false,
    }
}

// Says whether line number `place`, from 1, after the first line of a figure of `kind` may have `len` words.
fn is_long(kind: Kind, place: usize, len: usize) -> bool
    ensures { result ≡ is_long_enough kind place len }
{
    match kind {
        Kind::Witness(kind) => {
            if place == 1 {
                len == kind.branch_count() + 1
            } else {
                1 < len
            }
        }
        _ => true,
    }
}

// Says whether `words` have the shape of line number `place`, from 1, after the first line of a figure of `kind`.
fn is_vertex_line(kind: Kind, place: usize, words: &[Word]) -> bool
    ensures { IsTrue result ↔ IsRow kind place words.now }
{
    let front = pieces(kind);
    have_shapes(front, place, words)
        && is_long(kind, place, words.len())
        && words_from(words, front.len())
            .iter()
            .all(|word| is_natural_word(*word))
}

// Says whether the numbers among `words` are within their ranges, where these have the shape of a line of `kind`.
fn is_vertex_line_in_range(kind: Kind, words: &[Word]) -> bool
    ensures { IsTrue result ↔ RowInRange kind words.now }
{
    let front = pieces(kind);
    are_within(front, words)
        && words_from(words, front.len())
            .iter()
            .all(|word| is_vertex(*word))
}

// Says whether `words` begin like the first line of a figure: `figure` and a number.
pub fn is_first_head(words: &[Word]) -> bool
    ensures { IsTrue result ↔ ((word_at words.now 0 ≡ Word.Named Name.Figure) × IsTrue (is_natural (word_at words.now 1))) }
{
    is_name(word(words, 0), Name::Figure) && is_natural_word(word(words, 1))
}

// Says whether the number of a figure in its first line is from 1 to 2^24.
pub fn is_numbered(words: &[Word]) -> bool
    ensures { IsTrue result ↔ ((1 ≤ size (word_at words.now 1)) × (size (word_at words.now 1) ≤ 16777216)) }
{
    1 <= size_of(word(words, 1)) && size_of(word(words, 1)) <= 16_777_216
}

// Says whether a first line ends with a number after the word of its job.
pub fn is_counted(words: &[Word]) -> bool
    ensures { IsTrue result ↔ ((length words.now ≡ 4) × IsTrue (is_natural (word_at words.now 3))) }
{
    words.len() == 4 && is_natural_word(word(words, 3))
}

// Says whether the number of vertices in a first line is from 1 to 4095.
pub fn is_count_in_range(words: &[Word]) -> bool
    ensures { IsTrue result ↔ ((1 ≤ size (word_at words.now 3)) × (size (word_at words.now 3) ≤ 4095)) }
{
    1 <= size_of(word(words, 3)) && size_of(word(words, 3)) <= u32::from(MOST_VERTICES)
}

// Returns the verdict on a line: `Bad` unless it has the due `shape`, else `Limit` unless its numbers are in `range`,
// else `Good`.
pub fn worth(shape: bool, range: bool) -> Judged
    ensures { result ≡ (if shape then (if range then Judged.Good else Judged.Limit) else Judged.Bad) }
{
    if shape {
        if range { Judged::Good } else { Judged::Limit }
    } else {
        Judged::Bad
    }
}

/// Judges the `words` of line number `place`, from 1, after the first line of a figure of `kind`: the line of a vertex,
/// of branches or of a path.
pub fn judged_vertex_line(kind: Kind, place: usize, words: &[Word]) -> Judged
    ensures { Judges (IsRow kind place words.now) (RowInRange kind words.now) result }
{
    worth(
        is_vertex_line(kind, place, words),
        is_vertex_line_in_range(kind, words),
    )
}

/// Judges the `words` of the line of the columns.
pub fn judged_columns(words: &[Word]) -> Judged
    ensures { Judges (IsColumnsLine words.now) (ColumnsInRange words.now) result }
{
    let inside = words_from(words, 1).iter().all(|word| is_inside(*word));
    worth(is_columns_line(words), inside)
}
