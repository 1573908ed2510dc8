//! The public calls that print a figure as text, and `Printer`, which keeps its memory from one to the next.
ghost use Rattle.std.specs.Prelude.{◌≡◌, ◌+◌, ◌++◌, ◌∷◌, [], ℕ, List, ◌*◌, length, drop, sum_by, decimal, ◌<◌, ◌≤◌, OnOk, OnErr, IfOk};
ghost use Rattle.graph6_text.specs.Lines.{IsLine};
ghost use Rattle.figure_text.specs.Pieces.{bar_front};
ghost use Rattle.figure_text.specs.Text.{first_line, vertex_lines, columns_line, bar_numbers, fronts_room, job_word, grid_text, bars_text, rects_text, witness_text, IsText, IsWhole, HasBars, HasRects};

use crate::backward_writing::{write_columns, write_first};
use crate::number_texts::{Numerals, Texts};
use crate::vertex_print::{Numbered, write_lines};
use crate::witness_print::push_witness;
use crate::{Figure, GridJob};
use graphs::Graph;
use itoa::Buffer;
use kuratowski::Witness;
use map_lists::Rotations;
use pg_plane::{BarFigure, Ints, Points, RectFigure};
use std::alloc::{AllocError, Global};

// Appends `digit`, from 0 to 9, to `out` as a decimal digit.
fn push_digit(out: &mut Vec<u8>, digit: u64) -> Result<(), AllocError>
    requires { digit < 10 }
    ensures { OnOk result (out.new.items ≡ out.old.items ++ (48 + digit) ∷ []) }
{
    out.push(b'0' + digit as u8)?;
    Ok(())
}

// Appends `number` in decimal to `out`. Most numbers of a witness have one digit or two.
#[tactic(auto, using(std::proofs::lemmas::Fmt::decimal_digit, itoa::proofs::Decimal::decimal_two))]
pub(crate) fn push_number(out: &mut Vec<u8>, number: u64) -> Result<(), AllocError>
    ensures { OnOk result (out.new.items ≡ out.old.items ++ decimal number) }
{
    if number < 10 {
        return push_digit(out, number);
    }
    if number < 100 {
        push_digit(out, number / 10)?;
        return push_digit(out, number % 10);
    }
    let mut buffer = Buffer::new();
    out.extend_from_slice(buffer.format(number).as_bytes())
}

// Appends to `out` a space and the decimal digits of `number`, as the printed lines of a witness have them.
#[inline(always)]
#[tactic(auto, using(std::proofs::lemmas::Fmt::decimal_digit))]
pub(crate) fn push_next(out: &mut Vec<u8>, number: u64) -> Result<(), AllocError>
    ensures { OnOk result (out.new.items ≡ out.old.items ++ 32 ∷ decimal number) }
{
    if number < 10 {
        return out.extend_from_slice(&[b' ', b'0' + number as u8]);
    }
    out.push(b' ')?;
    push_number(out, number)
}

// Returns the word of the method `job` in a first line.
fn word_of(job: GridJob) -> &'static [u8]
    ensures word { result.now ≡ job_word job }
    ensures short { length result.now ≤ 8 }
{
    match job {
        GridJob::Shift => b"shift",
        GridJob::Schnyder => b"schnyder",
        GridJob::Convex => b"convex",
    }
}

/// What the first line of a drawing says of it, with the lists whose lines follow.
#[derive(Clone, Copy)]
pub(crate) struct Heading<'a> {
    /// The number of the figure.
    pub number: u32,
    /// The word of its job.
    pub word: &'a [u8],
    /// The neighbours of each vertex in clockwise order.
    pub lists: &'a Rotations,
    pub ghost short: { length word.now ≤ 8 },
}

// Returns the most bytes that the first line and vertex lines of a figure with these `lists` take. Fails beyond usize.
fn room_of<R: Numbered>(lists: &Rotations) -> Result<usize, AllocError>
    ensures { IfOk result (λ room. room ≡ 60 + 6 * sum_by length lists.now + fronts_room R.longest (length lists.now)) }
{
    let entries = lists.total().saturating_mul(6);
    let fronts = lists.len().saturating_mul(R::longest() + 1);
    let room = entries.saturating_add(fronts).saturating_add(60);
    if room == usize::MAX {
        return Err(AllocError);
    }
    Ok(room)
}

// Writes the first line by `heading` and the vertex lines of `figure` to the end of `bytes`, and returns their start.
fn write_figure<R: Numbered>(
    texts: &Texts<'_>,
    heading: &Heading<'_>,
    figure: &R,
    bytes: &mut [u8],
) -> usize
    requires has { (v : ℕ) → v < length heading.now.lists.now → R.Has figure.now v }
    requires room { 60 + 6 * sum_by length heading.now.lists.now + fronts_room R.longest (length heading.now.lists.now) ≤ length bytes.old }
    ensures within { result ≤ length bytes.new }
    ensures written { drop result bytes.new ≡ first_line heading.now.number heading.now.word.now (length heading.now.lists.now)
        ++ vertex_lines R.pieces (R.numbers figure.now) heading.now.lists.now (length heading.now.lists.now) }
{
    let lines = write_lines(texts, figure, heading.lists, bytes);
    write_first(texts, heading, bytes, lines)
}

/// Appends the text of `fig`, with the figure's `number`, to `out`. Each list of the drawing has an entry for each
/// vertex, but for the columns of bars, of which there may be any number. A witness has as many branches and paths as
/// its kind has, and no path is empty. When memory runs out `out` is unchanged.
pub fn print_figure(
    alloc: Global,
    number: u32,
    fig: &Figure,
    out: &mut Vec<u8>,
) -> Result<(), AllocError>
    requires { IsWhole fig.now }
    ensures ok { OnOk result ((text : List ℕ) × IsText number fig.now text × (out.new.items ≡ out.old.items ++ text)) }
    ensures err { OnErr result (out.new.items ≡ out.old.items) }
{
    let mut printer = Printer::new(alloc);
    match fig {
        Figure::Grid { job, lists, points } => printer.print_grid(number, *job, lists, points, out),
        Figure::Bars { lists, bars } => printer.print_bars(number, lists, bars, out),
        Figure::Rects { lists, rects } => printer.print_rects(number, lists, rects, out),
        Figure::Witness { graph, witness } => printer.print_witness(number, graph, witness, out),
    }
}

// Returns how many bytes the text of a visibility drawing with these `lists` and `columns` takes at most.
fn bars_room(lists: &Rotations, columns: &Ints) -> Result<usize, AllocError>
    ensures { IfOk result (λ room. room ≡ 60 + 6 * sum_by length lists.now + fronts_room 62 (length lists.now) + (12 * length columns.now + 8)) }
{
    let lines = room_of::<BarFigure>(lists)?;
    let line = columns.len().saturating_mul(12).saturating_add(8);
    let room = lines.saturating_add(line);
    if room == usize::MAX {
        return Err(AllocError);
    }
    Ok(room)
}

// Writes the first line by `heading`, and the vertex lines and line of columns of `bars`, to the end of `bytes`, which
// has room. Returns the index at which they start.
fn write_bars(texts: &Texts<'_>, heading: &Heading<'_>, bars: &BarFigure, bytes: &mut [u8]) -> usize
    requires bars { HasBars heading.now.lists.now bars.now }
    requires room { 60 + 6 * sum_by length heading.now.lists.now + fronts_room 62 (length heading.now.lists.now) + (12 * length bars.now.column + 8) ≤ length bytes.old }
    ensures within { result ≤ length bytes.new }
    ensures written { drop result bytes.new ≡ first_line heading.now.number heading.now.word.now (length heading.now.lists.now)
        ++ (vertex_lines bar_front (bar_numbers bars.now) heading.now.lists.now (length heading.now.lists.now) ++ columns_line bars.now.column) }
{
    let end = write_columns(texts, bars.column.as_slice(), bytes);
    write_figure(texts, heading, bars, &mut bytes[..end])
}

/// Prints figures, one after another, and keeps the memory of the longest text so far and the texts of numbers.
#[derive(Drop)]
pub struct Printer {
    numerals: Numerals,
    bytes: Vec<u8>,
    // the text of the last witness
    witness: Vec<u8>,
}

impl Printer {
    /// Makes a printer that has printed nothing yet. It takes no memory.
    pub fn new(alloc: Global) -> Printer {
        Printer {
            numerals: Numerals::new(alloc),
            bytes: Vec::new(alloc),
            witness: Vec::new(alloc),
        }
    }

    // Lengthens `self.bytes` to at least `room` bytes, with any content. Extends the table of number texts up to n +
    // 512, or 2n where that is less, for a drawing of `n` vertices. It fails only when out of memory.
    fn prepare(&mut self, n: usize, room: usize) -> Result<(), AllocError>
        ensures { OnOk result (room ≤ length self.new.bytes.items) }
    {
        self.numerals
            .keep(n.saturating_add(1).saturating_add(n.min(512)))?;
        if self.bytes.len() < room {
            self.bytes.resize(room, 0)?;
        }
        Ok(())
    }

    // Appends the first line by `heading` and the vertex lines of `figure` to `out`, which is kept if memory runs out.
    fn print_lines<R: Numbered>(
        &mut self,
        heading: &Heading<'_>,
        figure: &R,
        out: &mut Vec<u8>,
    ) -> Result<(), AllocError>
        requires { (v : ℕ) → v < length heading.now.lists.now → R.Has figure.now v }
        ensures ok { OnOk result (out.new.items ≡ out.old.items ++ (first_line heading.now.number heading.now.word.now (length heading.now.lists.now)
            ++ vertex_lines R.pieces (R.numbers figure.now) heading.now.lists.now (length heading.now.lists.now))) }
        ensures err { OnErr result (out.new.items ≡ out.old.items) }
    {
        self.prepare(heading.lists.len(), room_of::<R>(heading.lists)?)?;
        let texts = self.numerals.lend();
        let start = write_figure(&texts, heading, figure, &mut self.bytes);
        out.extend_from_slice(&self.bytes[start..])
    }

    /// Appends the text of a straight-line drawing to `out`, as figure `number` made by `job`. `points` has one entry
    /// for each of `lists`. When memory runs out `out` is unchanged.
    pub fn print_grid(
        &mut self,
        number: u32,
        job: GridJob,
        lists: &Rotations,
        points: &Points,
        out: &mut Vec<u8>,
    ) -> Result<(), AllocError>
        requires { length points.now ≡ length lists.now }
        ensures ok { OnOk result (out.new.items ≡ out.old.items ++ grid_text number job lists.now points.now) }
        ensures err { OnErr result (out.new.items ≡ out.old.items) }
    {
        let heading = Heading {
            number,
            word: word_of(job),
            lists,
        };
        self.print_lines(&heading, points, out)
    }

    /// Appends the text of a visibility drawing with this `number` to `out`, of `lists` and a bar for each of them.
    /// When memory runs out `out` is unchanged.
    pub fn print_bars(
        &mut self,
        number: u32,
        lists: &Rotations,
        bars: &BarFigure,
        out: &mut Vec<u8>,
    ) -> Result<(), AllocError>
        requires { HasBars lists.now bars.now }
        ensures ok { OnOk result (out.new.items ≡ out.old.items ++ bars_text number lists.now bars.now) }
        ensures err { OnErr result (out.new.items ≡ out.old.items) }
    {
        let heading = Heading {
            number,
            word: b"bars",
            lists,
        };
        self.prepare(lists.len(), bars_room(lists, &bars.column)?)?;
        let texts = self.numerals.lend();
        let start = write_bars(&texts, &heading, bars, &mut self.bytes);
        out.extend_from_slice(&self.bytes[start..])
    }

    /// Appends the text of a rectangular dual with this `number` to `out`, of `lists` and a rectangle for each of them.
    /// When memory runs out `out` is unchanged.
    pub fn print_rects(
        &mut self,
        number: u32,
        lists: &Rotations,
        rects: &RectFigure,
        out: &mut Vec<u8>,
    ) -> Result<(), AllocError>
        requires { HasRects lists.now rects.now }
        ensures ok { OnOk result (out.new.items ≡ out.old.items ++ rects_text number lists.now rects.now) }
        ensures err { OnErr result (out.new.items ≡ out.old.items) }
    {
        let heading = Heading {
            number,
            word: b"rect",
            lists,
        };
        self.print_lines(&heading, rects, out)
    }

    /// Appends the text of `witness`, as figure `number`, to `out`, with the graph6 line of its `graph` in the first
    /// line. When memory runs out `out` is unchanged.
    pub fn print_witness(
        &mut self,
        number: u32,
        graph: &Graph,
        witness: &Witness,
        out: &mut Vec<u8>,
    ) -> Result<(), AllocError>
        ensures ok { OnOk result ((line : List ℕ) × IsLine line graph.now
            × (out.new.items ≡ out.old.items ++ witness_text number line witness.now)) }
        ensures err { OnErr result (out.new.items ≡ out.old.items) }
    {
        self.witness.clear();
        push_witness(&mut self.witness, number, graph, witness)?;
        out.extend_from_slice(&self.witness)
    }
}
