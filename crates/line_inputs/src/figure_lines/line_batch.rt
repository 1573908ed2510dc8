//! Whole vertex lines at the front of a part, read in one loop by the quick test, with no reader step between them.
ghost use Rattle.std.specs.Prelude.{◌≡◌, ◌+◌, ◌≤◌, [], Some, List, ℕ, length, IfOk};
ghost use Rattle.record_runs.specs.Texts.{input_limit};
ghost use Rattle.line_inputs.specs.FigureLinesProgress.{Progress};
ghost use Rattle.line_inputs.specs.FigureLinesState.{TakesRun, IsFrontPart, TakesFront};
ghost use Rattle.line_inputs.specs.declared.figure_lines.begun_figure.Due.TheVariants.{Row};
ghost use Rattle.figure_text.specs.declared.figure.Figure.{Figure as AFigure};

use crate::figure_lines::begun_figure::{Begun, Due, SomeRows};
use figure_text::{Word, line_length};
use std::alloc::AllocError;

/// Whole vertex lines at the front of a part that were read at once, and the figure after them.
#[derive(Drop)]
pub struct Run {
    /// The figure.
    pub begun: Begun,
    /// How many bytes those lines are.
    pub bytes: usize,
    /// How many lines.
    pub lines: usize,
}

/// The outcome of trying to read vertex lines at the front of a part.
#[derive(Drop)]
pub enum Front {
    /// Some were taken.
    Lines(Run),
    /// None was, and this is the figure that had begun, if any.
    NoLine(Option<Begun>),
}

// A figure after one more line of a part, or none: its rows, and how many bytes and lines were read.
#[derive(Drop)]
struct LineStep {
    rows: SomeRows,
    bytes: usize,
    lines: usize,
}

// Returns the step that leaves the begun figure `rows` as it is: 0 bytes and 0 lines read.
fn no_step(rows: SomeRows) -> LineStep
    ensures { result ≡ record { rows = rows; bytes = 0; lines = 0 } }
{
    LineStep {
        rows,
        bytes: 0,
        lines: 0,
    }
}

// Reads the line at the front of `part` into the begun figure `rows`. It must be whole, not the last one due, and pass
// the quick test (which keeps few words). Otherwise returns `rows` with 0 bytes and 0 lines read. `found` is scratch
// space for words. It fails only when out of memory.
#[inline(always)]
fn with_line(found: &mut Vec<Word>, rows: SomeRows, part: &[u8]) -> Result<LineStep, AllocError>
    ensures within { IfOk result (λ step. step.bytes ≤ length part.now) }
    ensures few { IfOk result (λ step. step.lines ≤ step.bytes) }
    ensures takes { (consumed : List ℕ) (figures : List AFigure) (number first : ℕ) → length consumed + length part.now ≤ input_limit
        → Progress consumed figures number [] (Some (record { first = first; due = Row rows }))
        → IfOk result (λ step. TakesRun consumed figures number part.now [] step.bytes step.lines (record { first = first; due = Row step.rows })) }
{
    let len = line_length(part);
    let SomeRows { mut held } = rows;
    if len == part.len() {
        return Ok(no_step(SomeRows { held }));
    }
    if !held.are_two_due() {
        return Ok(no_step(SomeRows { held }));
    }
    if held.quick(found, &part[..len])? {
        Ok(LineStep {
            rows: SomeRows { held },
            bytes: len + 1,
            lines: 1,
        })
    } else {
        Ok(no_step(SomeRows { held }))
    }
}

// Returns the batch of `lines` lines of `bytes` bytes, after which the figure begun at line `first` has these `rows`.
fn run_to(first: u32, rows: SomeRows, bytes: usize, lines: usize) -> Run
    ensures { result ≡ record { begun = record { first = first; due = Row rows }; bytes = bytes; lines = lines } }
{
    Run {
        begun: Begun {
            first,
            due: Due::Row(rows),
        },
        bytes,
        lines,
    }
}

// Reads lines from the front of `part` into `rows`, of the figure begun on line `first`, while `with_line` takes one.
// Returns the figure, and the number of bytes and lines read. `found` is scratch space. Fails only when out of memory.
fn rows_run(
    found: &mut Vec<Word>,
    first: u32,
    rows: SomeRows,
    part: &[u8],
) -> Result<Run, AllocError>
    ensures within { IfOk result (λ run. run.bytes ≤ length part.now) }
    ensures few { IfOk result (λ run. run.lines ≤ run.bytes) }
    ensures takes { (consumed : List ℕ) (figures : List AFigure) (number : ℕ) → length consumed + length part.now ≤ input_limit
        → Progress consumed figures number [] (Some (record { first = first; due = Row rows }))
        → IfOk result (λ run. TakesRun consumed figures number part.now [] run.bytes run.lines run.begun) }
{
    let mut rows = rows;
    let mut bytes = 0;
    let mut lines = 0;
    while bytes < part.len() {
        let step = with_line(found, rows, &part[bytes..])?;
        let taken = bytes + step.bytes;
        let count = lines + step.lines;
        if step.bytes == 0 {
            return Ok(run_to(first, step.rows, taken, count));
        }
        rows = step.rows;
        bytes = taken;
        lines = count;
    }
    Ok(run_to(first, rows, bytes, lines))
}

/// Reads whole vertex lines at the front of `part`, as far as they pass the quick test, but never a figure's last.
/// Returns `Lines` with the batch, or `NoLine` with the figure unchanged. It reads none unless `before` is a begun
/// figure and `pending`, the open line's bytes, is empty. `found` is scratch space. It fails only when out of memory.
pub fn first_lines(
    found: &mut Vec<Word>,
    pending: &[u8],
    before: Option<Begun>,
    part: &[u8],
) -> Result<Front, AllocError>
    ensures front { IfOk result (IsFrontPart part.now) }
    ensures takes { (consumed : List ℕ) (figures : List AFigure) (number : ℕ) → length consumed + length part.now ≤ input_limit
        → Progress consumed figures number pending.now before → IfOk result (TakesFront consumed figures number part.now pending.now) }
{
    let Some(begun) = before else {
        return Ok(Front::NoLine(None));
    };
    if !pending.is_empty() {
        return Ok(Front::NoLine(Some(begun)));
    }
    let Begun { first, due } = begun;
    match due {
        Due::Row(rows) => {
            let run = rows_run(found, first, rows, part)?;
            if run.bytes == 0 {
                Ok(Front::NoLine(Some(run.begun)))
            } else {
                Ok(Front::Lines(run))
            }
        }
        Due::Columns(bars) => Ok(Front::NoLine(Some(Begun {
            first,
            due: Due::Columns(bars),
        }))),
    }
}
