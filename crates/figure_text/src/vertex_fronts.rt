//! Reads the front of a vertex line, which is what stands before the neighbours, without keeping its words.
ghost use Rattle.std.specs.Prelude.{◌≡◌, ◌+◌, ◌≤◌, ◌<◌, ◌++◌, ◌∷◌, [], List, ℕ, length, slice_index, IsTrue, IfSome};
ghost use Rattle.figure_text.specs.Pieces.{pieces as the_pieces, grid_front as grid_pieces, bar_front as bar_pieces};
ghost use Rattle.figure_text.specs.Plain.{IsPieceAt, IsFrontOf, plain_value};

use crate::front_pieces::{Piece, pieces};
use crate::line_shapes::{Kind, MOST_COORDINATE, size_of};
use crate::line_words::{Name, Next, Signed, Word, closing_at, is_letter_at, is_word_at, short_at};
use crate::plain_numbers::short_coordinate_at;
use crate::vertex_lines::{VertexLine, signed_number};

/// The most words that a front has, each of which may be a number.
const MOST_NUMBERS: usize = 7;

/// The numbers in the front of a line, or in some first pieces of it.
#[derive(Clone, Copy, PartialEq, Eq)]
pub struct LineFront {
    /// The absolute value of each number, at the index of its word.
    pub numbers: [u32; MOST_NUMBERS],
    /// The index in the line after these words and the space that follows.
    pub end: usize,
}

// Returns the word `name` that ends at index `end` if `is_there` is set, else None.
#[inline(always)]
fn word_if(is_there: bool, name: Name, end: usize) -> Option<Next>
    ensures { IfSome result (λ next. IsTrue is_there × (next.word ≡ Word.Named name) × (next.end ≡ end)) }
{
    if is_there {
        Some(Next {
            word: Word::Named(name),
            end,
        })
    } else {
        None
    }
}

// Returns the word that begins at index `at` of `line`, if it has the shape of `piece`, no sign, few digits and a space
// after it. None promises nothing. `place` is the number of the line in its figure.
#[inline(always)]
fn plain_piece(piece: Piece, place: usize, line: &[u8], at: usize) -> Option<Next>
    ensures { IfSome result (IsPieceAt piece place line.now at) }
{
    match piece {
        Piece::Place => match short_at(line, at) {
            Some(digits) if digits.value as usize == place => Some(Next {
                word: Word::Number(Signed {
                    negative: false,
                    size: digits.value,
                }),
                end: digits.end,
            }),
            _ => None,
        },
        Piece::Literal(Name::At) if at <= line.len() => {
            word_if(is_word_at(line, at), Name::At, at + 2)
        }
        Piece::Literal(Name::Y) if at <= line.len() => {
            word_if(is_letter_at(line, at, b'y'), Name::Y, at + 1)
        }
        Piece::Literal(Name::X) if at <= line.len() => {
            word_if(is_letter_at(line, at, b'x'), Name::X, at + 1)
        }
        Piece::Value => match short_coordinate_at(line, at) {
            Some(digits) => Some(Next {
                word: Word::Number(Signed {
                    negative: false,
                    size: digits.value,
                }),
                end: digits.end,
            }),
            None => None,
        },
        Piece::Last => match closing_at(line, at) {
            Some(digits) if digits.value <= MOST_COORDINATE => Some(Next {
                word: Word::Closing(Signed {
                    negative: false,
                    size: digits.value,
                }),
                end: digits.end,
            }),
            _ => None,
        },
        _ => None,
    }
}

impl LineFront {
    /// Returns the front of a vertex line before any piece is read: no numbers, at the beginning of the line.
    #[inline(always)]
    pub fn new() -> LineFront
        ensures { (place : ℕ) (line : List ℕ) → IsFrontOf [] place line result }
    {
        LineFront {
            numbers: [0; MOST_NUMBERS],
            end: 0,
        }
    }

    /// Returns the number kept for word `i`, below 7, of this front, or 2^20 if that is less.
    #[inline(always)]
    pub fn number(&self, i: usize) -> i32
        requires { i < length self.now.numbers }
        ensures { result ≡ plain_value (slice_index self.now.numbers i) }
    {
        signed_number(Signed {
            negative: false,
            size: self.numbers[i],
        })
    }
}

impl VertexLine<'_> {
    // Reads `piece`, number `k` of the front, into `front`, and says whether it is there. False promises nothing.
    #[inline(always)]
    fn with_piece(&self, front: &mut LineFront, k: usize, piece: Piece) -> bool
        requires { k < 7 }
        ensures { (pieces : List Piece) → length pieces ≡ k → IsFrontOf pieces self.now.place self.now.line.now front.old → IsTrue result
            → IsFrontOf (pieces ++ piece ∷ []) self.now.place self.now.line.now front.new }
    {
        match plain_piece(piece, self.place, self.line, front.end) {
            Some(next) => {
                front.numbers[k] = size_of(next.word);
                front.end = next.end + 1;
                true
            }
            None => false,
        }
    }

    // Reads the `pieces` before the neighbours into the empty `front`, and says if all are there. A no says nothing.
    fn any_front(&self, pieces: &[Piece], front: &mut LineFront) -> bool
        requires { length pieces.now ≤ 7 }
        ensures { IsFrontOf [] self.now.place self.now.line.now front.old → IsTrue result → IsFrontOf pieces.now self.now.place self.now.line.now front.new }
    {
        for k in 0..pieces.len() {
            if !self.with_piece(front, k, pieces[k]) {
                return false;
            }
        }
        true
    }

    // Reads the front of a straight-line drawing's line into `front` like `any_front`, with no loop, which takes fewer
    // instructions.
    #[inline(always)]
    fn grid_front(&self, front: &mut LineFront) -> bool
        ensures { IsFrontOf [] self.now.place self.now.line.now front.old → IsTrue result → IsFrontOf grid_pieces self.now.place self.now.line.now front.new }
    {
        self.with_piece(front, 0, Piece::Place)
            && self.with_piece(front, 1, Piece::Literal(Name::At))
            && self.with_piece(front, 2, Piece::Value)
            && self.with_piece(front, 3, Piece::Last)
    }

    // Reads the front of a visibility drawing's line into `front` like `any_front`, with no loop.
    #[inline(always)]
    fn bar_front(&self, front: &mut LineFront) -> bool
        ensures { IsFrontOf [] self.now.place self.now.line.now front.old → IsTrue result → IsFrontOf bar_pieces self.now.place self.now.line.now front.new }
    {
        self.with_piece(front, 0, Piece::Place)
            && self.with_piece(front, 1, Piece::Literal(Name::Y))
            && self.with_piece(front, 2, Piece::Value)
            && self.with_piece(front, 3, Piece::Literal(Name::X))
            && self.with_piece(front, 4, Piece::Value)
            && self.with_piece(front, 5, Piece::Last)
    }

    /// Reads all before the neighbours into the empty `front`, and says if it is plainly written. A no says nothing.
    #[inline(always)]
    pub fn read_front(&self, front: &mut LineFront) -> bool
        ensures { IsFrontOf [] self.now.place self.now.line.now front.old → IsTrue result → IsFrontOf (the_pieces self.now.kind) self.now.place self.now.line.now front.new }
    {
        let row = *self;
        match self.kind {
            Kind::Grid(_) => self.grid_front(front),
            Kind::Bars => self.bar_front(front),
            _ => row.any_front(pieces(self.kind), front),
        }
    }
}
