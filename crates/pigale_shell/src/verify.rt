//! The job `verify` over figures in text, as a job of the main loop, and the lines of its verdicts.
ghost use Rattle.std.specs.Prelude.{◌≡◌, ◌+◌, ◌++◌, OnOk, IfOk};
ghost use Rattle.pg_io.specs.Io.{TakesAtMost};
ghost use Rattle.record_runs.specs.Texts.{input_limit};
ghost use Rattle.record_runs.specs.Outcome.{ports, Outcome as RunOutcome, Counts};
ghost use Rattle.record_runs.specs.Parts.{part_answers};
ghost use Rattle.line_inputs.specs.FigureLinesFormat.{figures, ended_well, ending_behind};
ghost use Rattle.pigale_shell.specs.Verify.{verify_answers, numbers, verdict_line as verdict_line_of, verdict_words, bars_words, rects_words, spaced, numbers_line as numbers_line_of, witness_words, WritesVerdict};

use super::output_lines::{end_line, push_number, refusal_line, stop_line};
use bar_check::BarVerdict;
use convex_check::ConvexVerdict;
use draw_check::Verdict;
use figure_text::Figure;
use figure_verdicts::{FigureVerdict, figure_verdict};
use kuratowski::WitnessVerdict;
use line_inputs::figure_lines::{Ending, FigureReader};
use pg_io::{Sink, Source};
use record_runs::{Ended, Job as RecordJob, Part, PartJob, run_counted};
use rect_check::RectVerdict;
use refusals::Unserved;
use std::alloc::{AllocError, Global};

// Appends vertices to `out`, each after a space and printed from 1.
fn push_numbers(out: &mut Vec<u8>, vertices: &[u16]) -> Result<(), AllocError>
    ensures { OnOk result (out.new.items ≡ out.old.items ++ numbers vertices.now) }
{
    for v in vertices {
        push_number(out, u64::from(*v) + 1)?;
    }
    Ok(())
}

// Appends the numbers `found` to `out`, each after a space and as it is.
fn push_places(out: &mut Vec<u8>, found: &[usize]) -> Result<(), AllocError>
    ensures { OnOk result (out.new.items ≡ out.old.items ++ spaced found.now) }
{
    for n in found {
        push_number(out, *n as u64)?;
    }
    Ok(())
}

// Returns the line of a verdict on figure `number`: its `name`, and the `vertices` that it names, printed from 1.
fn verdict_line(
    alloc: Global,
    number: u32,
    name: &[u8],
    vertices: &[u16],
) -> Result<Vec<u8>, AllocError>
    ensures { IfOk result (λ line. line.items ≡ verdict_line_of number (name.now, vertices.now)) }
{
    let mut line = Vec::from_slice(alloc, b"verdict")?;
    push_number(&mut line, u64::from(number))?;
    line.push(b' ')?;
    line.extend_from_slice(name)?;
    push_numbers(&mut line, vertices)?;
    line.push(b'\n')?;
    Ok(line)
}

// Returns the line of a verdict on a straight-line drawing, for figure `number`.
fn fault_line(alloc: Global, number: u32, verdict: Verdict) -> Result<Vec<u8>, AllocError>
    ensures { IfOk result (λ line. line.items ≡ verdict_line_of number (verdict_words verdict)) }
{
    match verdict {
        Verdict::OutOfGrid(v) => verdict_line(alloc, number, b"OutOfGrid", &[v.0]),
        Verdict::SamePlace(u, v) => verdict_line(alloc, number, b"SamePlace", &[u.0, v.0]),
        Verdict::OnEdge(v, e) => verdict_line(alloc, number, b"OnEdge", &[v.0, e.a.0, e.b.0]),
        Verdict::Cross(e, f) => verdict_line(
            alloc,
            number,
            b"Cross",
            &[e.a.0, e.b.0, f.a.0, f.b.0],
        ),
        Verdict::Turned(v) => verdict_line(alloc, number, b"Turned", &[v.0]),
        Verdict::Yes => verdict_line(alloc, number, b"yes", &[]),
    }
}

// Returns the line of a verdict on bars, for figure `number`.
fn bars_line(alloc: Global, number: u32, verdict: BarVerdict) -> Result<Vec<u8>, AllocError>
    ensures { IfOk result (λ line. line.items ≡ verdict_line_of number (bars_words verdict)) }
{
    match verdict {
        BarVerdict::BadShape => verdict_line(alloc, number, b"BadShape", &[]),
        BarVerdict::BadHeight(v) => verdict_line(alloc, number, b"BadHeight", &[v.0]),
        BarVerdict::BadBar(v) => verdict_line(alloc, number, b"BadBar", &[v.0]),
        BarVerdict::BadColumn(e) => verdict_line(alloc, number, b"BadColumn", &[e.a.0, e.b.0]),
        BarVerdict::Through(e, v) => verdict_line(alloc, number, b"Through", &[e.a.0, e.b.0, v.0]),
        BarVerdict::Overlap(e, f) => verdict_line(
            alloc,
            number,
            b"Overlap",
            &[e.a.0, e.b.0, f.a.0, f.b.0],
        ),
        BarVerdict::Turned(v) => verdict_line(alloc, number, b"Turned", &[v.0]),
        BarVerdict::Yes => verdict_line(alloc, number, b"yes", &[]),
    }
}

// Returns the line of a verdict on rectangles, for figure `number`.
fn rects_line(alloc: Global, number: u32, verdict: RectVerdict) -> Result<Vec<u8>, AllocError>
    ensures { IfOk result (λ line. line.items ≡ verdict_line_of number (rects_words verdict)) }
{
    match verdict {
        RectVerdict::BadRect(v) => verdict_line(alloc, number, b"BadRect", &[v.0]),
        RectVerdict::Meet(u, v) => verdict_line(alloc, number, b"Meet", &[u.0, v.0]),
        RectVerdict::Gap => verdict_line(alloc, number, b"Gap", &[]),
        RectVerdict::Contact(u, v) => verdict_line(alloc, number, b"Contact", &[u.0, v.0]),
        RectVerdict::NoFrame => verdict_line(alloc, number, b"NoFrame", &[]),
        RectVerdict::Frame(v) => verdict_line(alloc, number, b"Frame", &[v.0]),
        RectVerdict::Yes => verdict_line(alloc, number, b"yes", &[]),
    }
}

// Returns the line of a verdict on figure `number`: its name, and the numbers `found` as they are.
fn numbers_line(
    alloc: Global,
    number: u32,
    name: &[u8],
    found: &[usize],
) -> Result<Vec<u8>, AllocError>
    ensures { IfOk result (λ line. line.items ≡ numbers_line_of number (name.now, found.now)) }
{
    let mut line = Vec::from_slice(alloc, b"verdict")?;
    push_number(&mut line, u64::from(number))?;
    line.push(b' ')?;
    line.extend_from_slice(name)?;
    push_places(&mut line, found)?;
    line.push(b'\n')?;
    Ok(line)
}

// Returns the line of a verdict on a Kuratowski witness, for figure `number`.
fn witness_line(alloc: Global, number: u32, verdict: WitnessVerdict) -> Result<Vec<u8>, AllocError>
    ensures { IfOk result (λ line. line.items ≡ numbers_line_of number (witness_words verdict)) }
{
    match verdict {
        WitnessVerdict::BadShape => numbers_line(alloc, number, b"BadShape", &[]),
        WitnessVerdict::BadBranch(i) => numbers_line(alloc, number, b"BadBranch", &[i]),
        WitnessVerdict::NotEdge(p, i) => numbers_line(alloc, number, b"NotEdge", &[p, i]),
        WitnessVerdict::Shared(p, q, v) => numbers_line(
            alloc,
            number,
            b"Shared",
            &[p, q, v.0 as usize + 1],
        ),
        WitnessVerdict::Yes => numbers_line(alloc, number, b"yes", &[]),
    }
}

// Returns the line of a verdict on figure `number` of any kind, or the line that refuses its map.
fn figure_line(alloc: Global, number: u32, verdict: FigureVerdict) -> Result<Vec<u8>, AllocError>
    ensures { IfOk result (λ line. WritesVerdict number verdict line.items) }
{
    match verdict {
        FigureVerdict::Refused(fault) => match Unserved::from(fault) {
            Unserved::Refused(refusal) => refusal_line(alloc, number, refusal),
            Unserved::NoMemory => Err(AllocError),
        },
        FigureVerdict::Drawing(verdict) => fault_line(alloc, number, verdict),
        FigureVerdict::Inside(v, u) => verdict_line(alloc, number, b"Inside", &[v.0, u.0]),
        FigureVerdict::Convex(ConvexVerdict::Bent(a, b, c)) => {
            verdict_line(alloc, number, b"Bent", &[a.0, b.0, c.0])
        }
        FigureVerdict::Convex(ConvexVerdict::OuterBent) => verdict_line(
            alloc,
            number,
            b"OuterBent",
            &[],
        ),
        FigureVerdict::Convex(ConvexVerdict::Yes) => verdict_line(alloc, number, b"yes", &[]),
        FigureVerdict::Bars(verdict) => bars_line(alloc, number, verdict),
        FigureVerdict::Rects(verdict) => rects_line(alloc, number, verdict),
        FigureVerdict::Witness(verdict) => witness_line(alloc, number, verdict),
        FigureVerdict::Yes => verdict_line(alloc, number, b"yes", &[]),
    }
}

/// The job `verify`, which judges figures.
#[derive(Drop)]
pub struct VerifyJob {
    alloc: Global,
}

impl VerifyJob {
    /// Makes the job, before the first figure. It takes no memory.
    pub fn new(alloc: Global) -> VerifyJob {
        VerifyJob { alloc }
    }
}

impl RecordJob<FigureReader> for VerifyJob {
    ghost use Rattle.pigale_shell.specs.Verify.{verify_answers};

    type Kind = ();

    ghost kind = { λ job. tt };

    ghost answers = { λ kind. verify_answers };

    // Appends the line of the verdict on `given`, which is figure `number`, to `out`. Returns whether it is valid. This
    // is not inlined, as its checks keep large arrays on the stack.
    #[inline(never)]
    fn answer(
        &mut self,
        number: u32,
        given: &Figure,
        out: &mut Vec<u8>,
    ) -> Result<bool, AllocError> {
        figure_verdicts::yes_is_valid_figure();
        figure_verdicts::valid_is_yes();
        let verdict = figure_verdict(self.alloc, given)?;
        let line = figure_line(self.alloc, number, verdict)?;
        out.extend_from_slice(&line)?;
        match verdict {
            FigureVerdict::Yes => Ok(true),
            _ => Ok(false),
        }
    }

    // Returns the last line of a run of `verify`: `end` with the counts `records` and `refused` after a good ending.
    // Otherwise it is `stop` with the bad ending `end`, and with the number of the line at fault, if there is one.
    fn last_line(
        &self,
        alloc: Global,
        records: u32,
        refused: u32,
        end: &Ending,
    ) -> Result<Vec<u8>, AllocError> {
        match *end {
            Ending::Well => end_line(alloc, records, refused),
            Ending::BadLine(k) => stop_line(alloc, b"stop BadLine", k as usize),
            Ending::Limit(k) => stop_line(alloc, b"stop Limit", k as usize),
            Ending::EndInFigure(k) => stop_line(alloc, b"stop EndInFigure", k as usize),
            Ending::TooLong => Vec::from_slice(alloc, b"stop TooLong\n"),
        }
    }
}

/// Runs the job `verify` over `part` of an input of figures, the bytes of `src`, and writes to `out`. Returns how the run
/// ended, and what it counted.
pub(crate) fn run_figure_part<S: Source, K: Sink>(
    alloc: Global,
    part: Part,
    src: &mut S,
    out: &mut K,
) -> Ended
    ensures outcome { RunOutcome figures (part_answers ended_well ending_behind verify_answers part)
        (ports (S.left src.old) (S.faults src.old) (K.written out.old) (K.faults out.old))
        (ports (S.left src.new) (S.faults src.new) (K.written out.new) (K.faults out.new)) result.end }
    ensures counts { Counts figures (part_answers ended_well ending_behind verify_answers part) (S.left src.old)
        result.records result.refused result.end }
    ensures limit { TakesAtMost (input_limit + 1) (S.left src.old) (S.left src.new) }
{
    let mut verify = VerifyJob::new(alloc);
    let mut job = PartJob {
        job: &mut verify,
        part,
    };
    run_counted(alloc, FigureReader::new(alloc), &mut job, src, out)
}
