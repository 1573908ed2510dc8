//! Bytes of an input of figures joined to its open line, which is judged where they close it.
ghost use Rattle.std.specs.Prelude.{◌+◌, ◌≤◌, List, ℕ, length, IfOk};
ghost use Rattle.record_runs.specs.Texts.{input_limit};
ghost use Rattle.line_inputs.specs.FigureLinesProgress.{Progress};
ghost use Rattle.line_inputs.specs.FigureLinesState.{IsLinePart, TakesLine};
ghost use Rattle.figure_text.specs.declared.figure.Figure.{Figure as AFigure};

use crate::figure_lines::begun_figure::Begun;
use crate::figure_lines::closed_line::{After, ClosedLine};
use crate::figure_lines::line_batch::{Front, Run, first_lines};
use crate::whole_lines::{chosen, join};
use figure_text::{Word, line_length};
use std::alloc::{AllocError, Global};

/// The outcome of reading a part of a piece into the open line.
#[derive(Drop)]
pub enum Line {
    /// It is open still, and the whole part joined it.
    Open(Option<Begun>),
    /// It was closed by this many bytes of the part.
    Closed(usize, After),
    /// Whole lines were taken.
    Ran(Run),
}

/// Reads whole vertex lines from the front of `part` and returns them as `Ran`. If there are none, it reads the rest of
/// the open line. It returns `Closed` with the bytes and the verdict, or `Open` where no line ends. `pending` holds the
/// open line's bytes, `line` is its number, and `before` is the begun figure, if any. `found` is scratch space for
/// words. It fails only when out of memory.
pub fn take_part(
    alloc: Global,
    found: &mut Vec<Word>,
    pending: &mut Vec<u8>,
    before: Option<Begun>,
    line: u32,
    part: &[u8],
) -> Result<Line, AllocError>
    ensures part { IfOk result (IsLinePart part.now) }
    ensures takes { (consumed : List ℕ) (figures : List AFigure) → Progress consumed figures line pending.old.items before
        → length consumed + length part.now ≤ input_limit → IfOk result (TakesLine consumed figures line part.now pending.new.items) }
{
    match first_lines(found, pending, before, part)? {
        Front::Lines(run) => Ok(Line::Ran(run)),
        Front::NoLine(before) => {
            let len = line_length(part);
            if len == part.len() {
                pending.extend_from_slice(&part[..len])?;
                return Ok(Line::Open(before));
            }
            let alone = pending.is_empty();
            join(alone, pending, &part[..len])?;
            let closed = ClosedLine {
                alloc,
                number: line,
                text: chosen(alone, &part[..len], pending),
            };
            let after = closed.after(found, before)?;
            pending.clear();
            Ok(Line::Closed(len + 1, after))
        }
    }
}
