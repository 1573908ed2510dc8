//! The pieces of the front of a vertex line: for each kind of figure the words that stand before the neighbours.
ghost use Rattle.std.specs.Prelude.{◌≡◌, ◌↔◌, ◌<◌, ◌≤◌, length, IsTrue};
ghost use Rattle.std.specs.Bool.{OnTrue};
ghost use Rattle.figure_text.specs.Lines.{size, is_natural, row_name};
ghost use Rattle.figure_text.specs.Pieces.{pieces as the_pieces, Fits, IsWithin, Along};

use crate::line_shapes::{
    Kind, is_closing_word, is_inside, is_name, is_natural_word, is_number_word, size_of,
    witness_word, word,
};
use crate::line_words::Name::{At, X, Y};
use crate::line_words::{Name, Word};
use Piece::{Last, Literal, Place, Row, Value};

/// A word before the neighbours of a vertex, or before the vertices of a branch or a path.
#[derive(Clone, Copy, PartialEq, Eq)]
pub enum Piece {
    /// The number of the vertex, from 1.
    Place,
    /// This known word.
    Literal(Name),
    /// `branch` or `path`, by the number of the line.
    Row,
    /// A number of the vertex.
    Value,
    /// The last number of the vertex, before a colon.
    Last,
}

// The pieces for a straight-line drawing.
const GRID: [Piece; 4] = [Place, Literal(At), Value, Last];

// The pieces for a visibility drawing.
const BARS: [Piece; 6] = [Place, Literal(Y), Value, Literal(X), Value, Last];

// The pieces for a rectangular dual.
const RECTS: [Piece; 7] = [Place, Literal(X), Value, Value, Literal(Y), Value, Last];

// The pieces for a witness.
const WITNESS: [Piece; 1] = [Row];

/// Returns the pieces before the neighbours, or before the vertices of a branch or a path, in a line of this `kind`.
pub fn pieces(kind: Kind) -> &'static [Piece]
    ensures pieces { result.now ≡ the_pieces kind }
    ensures few { length result.now ≤ 7 }
{
    match kind {
        Kind::Grid(_) => &GRID,
        Kind::Bars => &BARS,
        Kind::Rects => &RECTS,
        Kind::Witness(_) => &WITNESS,
    }
}

/// Says whether `word`, in line number `place`, from 1, after a figure's first line, has the shape of `piece`.
#[inline(always)]
pub fn fits(piece: Piece, place: usize, word: Word) -> bool
    ensures { IsTrue result ↔ Fits place piece word }
{
    match piece {
        Piece::Place => is_natural_word(word) && size_of(word) as usize == place,
        Piece::Literal(name) => is_name(word, name),
        Piece::Row => is_name(word, witness_word(place)),
        Piece::Value => is_number_word(word),
        Piece::Last => is_closing_word(word),
    }
}

/// Says whether `word` is within the range of `piece`: that of coordinates for a number of the vertex, else any.
#[inline(always)]
pub fn is_within(piece: Piece, word: Word) -> bool
    ensures { IsTrue result ↔ IsWithin piece word }
{
    match piece {
        Piece::Value => is_inside(word),
        Piece::Last => is_inside(word),
        _ => true,
    }
}

/// Says whether the first of `words`, in line `place` of their figure, have the shapes of `pieces`.
pub fn have_shapes(pieces: &[Piece], place: usize, words: &[Word]) -> bool
    ensures { IsTrue result ↔ Along (Fits place) pieces.now words.now }
{
    for k in 0..pieces.len() {
        if !fits(pieces[k], place, word(words, k)) {
            return false;
        }
    }
    true
}

/// Says whether the numbers among the first of `words`, those of `pieces`, are within their ranges.
pub fn are_within(pieces: &[Piece], words: &[Word]) -> bool
    ensures { IsTrue result ↔ Along IsWithin pieces.now words.now }
{
    for k in 0..pieces.len() {
        if !is_within(pieces[k], word(words, k)) {
            return false;
        }
    }
    true
}

/// Says whether `words` fit `pieces` one by one, in shape and range, in line `place`. Only a yes is promised.
pub fn is_front(pieces: &[Piece], place: usize, words: &[Word]) -> bool
    ensures { OnTrue result ((length words.now ≡ length pieces.now) × Along (Fits place) pieces.now words.now × Along IsWithin pieces.now words.now) }
{
    words.len() == pieces.len() && have_shapes(pieces, place, words) && are_within(pieces, words)
}
