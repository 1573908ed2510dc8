//! Judges a line that stands outside a figure: a note, the first line of a figure, or neither.
ghost use Rattle.std.specs.Prelude.{◌≡◌, ◌<◌, ◌≤◌, ℕ, List, length, [], None, Some, IsTrue, IsFalse, IfOk, MatchOption};
ghost use Rattle.std.specs.List.{slice_split};
ghost use Rattle.graph6_text.specs.Faults.{line_fault, NamesFault};
ghost use Rattle.figure_text.specs.Words.{words_of, part_at};
ghost use Rattle.figure_text.specs.Lines.{IsTail, TailInRange, IsFirstLine, FirstInRange, kind_of, is_graph_shaped};
ghost use Rattle.figure_text.specs.Reading.{Judges, is_note as is_note_line};
ghost use Rattle.figure_text.specs.Front.{IsFront, IsFrontBy, IsFirstOf, IsGraphOf};

use crate::line_shapes::{
    Judged, Kind, is_count_in_range, is_counted, is_first_head, is_numbered, job_kind, line_count,
    worth,
};
use crate::line_words::{Word, fill_front};
use crate::text_lines::is_note;
use graph6_text::{G6Fault, lines_are_graphs, read_line};
use graphs::Graph;
use std::alloc::{AllocError, Global};

/// A closed line that stands outside a figure, judged.
#[derive(Clone, Copy, PartialEq, Eq)]
pub enum Front {
    /// A note: a line that another job wrote.
    Note,
    /// The first line of a figure: its kind, and how many lines of vertices, or of branches and paths, follow.
    Begins(Kind, usize),
    /// It has the shape of the first line of a figure of this kind, and a number outside its range.
    Limit(Kind),
    /// It has another shape.
    Bad,
}

// Returns word `i`, from 0, of `line`, which is cut at its spaces, or no bytes where there are fewer words.
fn part(line: &[u8], i: usize) -> &[u8]
    ensures { result.now ≡ part_at line.now i }
{
    match line.split(|byte| *byte == b' ').nth(i) {
        Some(found) => found,
        None => &[],
    }
}

// Returns the verdict on what is after the job's word in the first `line` of a figure of this `kind`, cut into `words`:
// the number of vertices, or for a witness the graph6 line. It fails only when out of memory.
fn tail_worth(alloc: Global, kind: Kind, line: &[u8], words: &[Word]) -> Result<Judged, AllocError>
    requires { words.now ≡ words_of line.now }
    ensures { IfOk result (Judges (IsTail (Some kind) line.now) (TailInRange (Some kind) line.now)) }
{
    lines_are_graphs();
    match kind {
        Kind::Witness(_) if words.len() == 5 => match read_line(alloc, part(line, 4)) {
            Ok(_) => Ok(Judged::Good),
            Err(G6Fault::TooMany(_)) => Ok(Judged::Limit),
            Err(G6Fault::NoMemory) => Err(AllocError),
            Err(_) => Ok(Judged::Bad),
        },
        Kind::Witness(_) => Ok(Judged::Bad),
        _ => Ok(worth(is_counted(words), is_count_in_range(words))),
    }
}

// Judges the first line of a figure of this `kind` by all its `words` and `tail`, the verdict on those after the job's.
// Returns `Begins`, `Limit` if a number is out of range, or `Bad`.
fn front_of(kind: Kind, words: &[Word], tail: Judged) -> Front
    ensures { (line : List ℕ) → words.now ≡ words_of line → kind_of words.now ≡ Some kind
        → Judges (IsTail (Some kind) line) (TailInRange (Some kind) line) tail → IsFrontBy line result }
{
    if !is_first_head(words) {
        return Front::Bad;
    }
    match tail {
        Judged::Bad => Front::Bad,
        Judged::Limit => Front::Limit(kind),
        Judged::Good => {
            if is_numbered(words) {
                Front::Begins(kind, line_count(kind, words))
            } else {
                Front::Limit(kind)
            }
        }
    }
}

// The most words that the first line of a figure has.
const MOST_WORDS: usize = 5;

// Returns the words of `line`, or None if there are more than a first line has. It fails only when out of memory.
fn few_words(alloc: Global, line: &[u8]) -> Result<Option<Vec<Word>>, AllocError>
    ensures { IfOk result (λ found. MatchOption found (5 < length (words_of line.now)) (λ v. v.items ≡ words_of line.now)) }
{
    let mut found = Vec::new(alloc);
    let _end = fill_front(line, MOST_WORDS + 1, &mut found)?;
    if found.len() > MOST_WORDS {
        Ok(None)
    } else {
        Ok(Some(found))
    }
}

/// Judges `line`, which stands outside a figure and is given without its closing byte 10. Returns `Note`, `Begins` for
/// a good first line, `Limit` for one with a number out of range, or `Bad`. It fails only when out of memory.
pub fn front_line(alloc: Global, line: &[u8]) -> Result<Front, AllocError>
    ensures { IfOk result (IsFront line.now) }
{
    if is_note(line) {
        return Ok(Front::Note);
    }
    match few_words(alloc, line)? {
        Some(found) => match job_kind(&found) {
            Some(kind) => {
                let tail = tail_worth(alloc, kind, line, &found)?;
                Ok(front_of(kind, &found, tail))
            }
            None => Ok(Front::Bad),
        },
        None => Ok(Front::Bad),
    }
}

/// Returns the graph of a witness by its first `line`, given without its closing byte 10. The fifth word is a graph6
/// line without a fault. It fails only when out of memory.
pub fn front_graph(alloc: Global, line: &[u8]) -> Result<Graph, AllocError>
    requires { line_fault (part_at line.now 4) ≡ None }
    ensures { IfOk result (IsGraphOf line.now) }
{
    match read_line(alloc, part(line, 4)) {
        Ok(graph) => Ok(graph),
        Err(_) => Err(AllocError),
    }
}
