//! Prints the vertex lines of drawings, backwards, from the last vertex to the first.
ghost use Rattle.std.specs.Prelude.{◌≡◌, ◌+◌, ◌*◌, ◌<◌, ◌≤◌, ◌++◌, List, ℕ, ℤ, length, drop, sum_by};
ghost use Rattle.figure_text.specs.declared.front_pieces.Piece.{Piece};
ghost use Rattle.figure_text.specs.Text.{integer_at, point_at, joined, front_words, vertex_line, vertex_lines, fronts_room};

use crate::backward_writing::{
    write_byte, write_letter, write_number, write_signed, write_vertices,
};
use crate::number_texts::Texts;
use map_lists::Rotations;
use pg_plane::{BarFigure, Ints, Point, Points, RectFigure};

/// The line of a vertex that is to be written: the number of the vertex, from 0, its neighbours, and the texts of
/// numbers.
#[derive(Clone, Copy)]
pub struct PrintedLine<'a> {
    pub texts: Texts<'a>,
    pub v: usize,
    pub list: &'a [u16],
    pub ghost max: { v < 4096 },
}

/// A figure in which each vertex has numbers, which stand on its line.
pub trait Numbered {
    /// The pieces before the neighbours.
    ghost pieces: { List Piece };

    /// The numbers of a vertex.
    ghost numbers: { Self → ℕ → List ℤ };

    /// It has numbers for this vertex.
    ghost Has: { Self → ℕ → Type 0 };

    /// How many bytes stand before the neighbours at most.
    ghost longest: { ℕ };

    /// Returns how many bytes stand before the neighbours at most.
    fn longest() -> usize
        ensures is { result ≡ longest }
        ensures few { result ≤ 80 };

    /// Writes the front of `line`, all before its neighbours, into `bytes` so that it ends before index `end`. Returns
    /// the index at which it starts; the bytes before that may change too.
    fn write_front(&self, line: &PrintedLine<'_>, bytes: &mut [u8], end: usize) -> usize
        requires has { Has self.now line.now.v }
        requires room { (longest ≤ end) × (end ≤ length bytes.old) }
        ensures some { 0 < length (front_words (pieces) line.now.v (numbers self.now line.now.v)) }
        ensures within { (result ≤ end) × (end ≤ result + longest) }
        ensures written { drop result bytes.new ≡ joined (front_words (pieces) line.now.v (numbers self.now line.now.v)) ++ drop end bytes.old };
}

// Returns point `v` of `list`.
fn point(list: &Points, v: usize) -> Point
    requires { v < length list.now }
    ensures { result ≡ point_at list.now v }
{
    list.get(v)
}

// Returns number `v` of `list`.
fn integer(list: &Ints, v: usize) -> i32
    requires { v < length list.now }
    ensures { result ≡ integer_at list.now v }
{
    list.get(v)
}

impl Numbered for Points {
    ghost use Rattle.figure_text.specs.Pieces.{grid_front};
    ghost use Rattle.figure_text.specs.Text.{grid_numbers};

    ghost pieces = { grid_front };

    ghost numbers = { grid_numbers };

    ghost Has = { λ points v. v < length points };

    ghost longest = { 49 };

    // Returns how many bytes "V at X Y:" takes at most.
    fn longest() -> usize {
        49
    }

    // Writes "V at X Y:" before index `end`: V is the vertex, from 1, and X and Y are its point. Returns the start.
    #[inline(always)]
    fn write_front(&self, line: &PrintedLine<'_>, bytes: &mut [u8], end: usize) -> usize {
        let texts = line.texts;
        let v = line.v;
        let point = point(self, v);
        let colon = write_byte(b':', bytes, end);
        let y = write_signed(&texts, point.y, bytes, colon);
        let x = write_signed(&texts, point.x, bytes, y);
        let t = write_byte(b't', bytes, x);
        let at = write_letter(b'a', bytes, t);
        write_number(&texts, v as u64 + 1, bytes, at)
    }
}

impl Numbered for BarFigure {
    ghost use Rattle.figure_text.specs.Pieces.{bar_front};
    ghost use Rattle.figure_text.specs.Text.{bar_numbers};

    ghost pieces = { bar_front };

    ghost numbers = { bar_numbers };

    ghost Has = { λ bars v. (v < length bars.y) × (v < length bars.x1) × (v < length bars.x2) };

    ghost longest = { 62 };

    // Returns how many bytes "V y Y x A B:" takes at most.
    fn longest() -> usize {
        62
    }

    // Writes "V y Y x A B:" before index `end`: V's bar, V from 1, goes from A to B at height Y. Returns the start.
    #[inline(always)]
    fn write_front(&self, line: &PrintedLine<'_>, bytes: &mut [u8], end: usize) -> usize {
        let texts = line.texts;
        let v = line.v;
        let y = integer(&self.y, v);
        let a = integer(&self.x1, v);
        let b = integer(&self.x2, v);
        let colon = write_byte(b':', bytes, end);
        let second = write_signed(&texts, b, bytes, colon);
        let first = write_signed(&texts, a, bytes, second);
        let x = write_letter(b'x', bytes, first);
        let height = write_signed(&texts, y, bytes, x);
        let word = write_letter(b'y', bytes, height);
        write_number(&texts, v as u64 + 1, bytes, word)
    }
}

impl Numbered for RectFigure {
    ghost use Rattle.figure_text.specs.Pieces.{rect_front};
    ghost use Rattle.figure_text.specs.Text.{rect_numbers};

    ghost pieces = { rect_front };

    ghost numbers = { rect_numbers };

    ghost Has = { λ rects v. (v < length rects.x1) × (v < length rects.x2) × (v < length rects.y1) × (v < length rects.y2) };

    ghost longest = { 74 };

    // Returns how many bytes "V x A B y C D:" takes at most.
    fn longest() -> usize {
        74
    }

    // Writes "V x A B y C D:" before index `end`: V's box, V from 1, goes from A to B and C to D. Returns the start.
    #[inline(always)]
    fn write_front(&self, line: &PrintedLine<'_>, bytes: &mut [u8], end: usize) -> usize {
        let texts = line.texts;
        let v = line.v;
        let a = integer(&self.x1, v);
        let b = integer(&self.x2, v);
        let c = integer(&self.y1, v);
        let d = integer(&self.y2, v);
        let colon = write_byte(b':', bytes, end);
        let top = write_signed(&texts, d, bytes, colon);
        let bottom = write_signed(&texts, c, bytes, top);
        let y = write_letter(b'y', bytes, bottom);
        let right = write_signed(&texts, b, bytes, y);
        let left = write_signed(&texts, a, bytes, right);
        let x = write_letter(b'x', bytes, left);
        write_number(&texts, v as u64 + 1, bytes, x)
    }
}

// Writes `line`, with the numbers that `figure` has for its vertex, into `bytes` so that it ends before index `end`.
// Returns the index at which it starts.
#[inline(always)]
fn write_line<R: Numbered>(
    line: &PrintedLine<'_>,
    figure: &R,
    bytes: &mut [u8],
    end: usize,
) -> usize
    requires has { R.Has figure.now line.now.v }
    requires room { 6 * length line.now.list.now + 8 + R.longest ≤ end }
    requires end { end ≤ length bytes.old }
    ensures within { (result ≤ end) × (end ≤ result + (6 * length line.now.list.now + 1 + R.longest)) }
    ensures written { drop result bytes.new ≡ vertex_line R.pieces line.now.v (R.numbers figure.now line.now.v) line.now.list.now ++ drop end bytes.old }
{
    let texts = line.texts;
    let newline = write_byte(b'\n', bytes, end);
    let front = write_vertices(&texts, line.list, bytes, newline);
    figure.write_front(line, bytes, front)
}

/// Writes the lines of the vertices, with the numbers of `figure` and the neighbours in `lists`, at the end of `bytes`.
/// Returns the index at which they start: at least 60 bytes before it are left for a first line.
pub fn write_lines<R: Numbered>(
    texts: &Texts<'_>,
    figure: &R,
    lists: &Rotations,
    bytes: &mut [u8],
) -> usize
    requires has { (v : ℕ) → v < length lists.now → R.Has figure.now v }
    requires room { 60 + 6 * sum_by length lists.now + fronts_room R.longest (length lists.now) ≤ length bytes.old }
    ensures within { (60 ≤ result) × (result ≤ length bytes.new) }
    ensures written { drop result bytes.new ≡ vertex_lines R.pieces (R.numbers figure.now) lists.now (length lists.now) }
{
    let mut start = bytes.len();
    for k in 0..lists.len() {
        let v = lists.len() - 1 - k;
        let line = PrintedLine {
            texts: *texts,
            v,
            list: lists.list(v),
        };
        start = write_line(&line, figure, bytes, start);
    }
    start
}
