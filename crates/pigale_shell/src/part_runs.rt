//! One run of a job over a part of an input: its records are numbered on, and its last line has the sums.
ghost use Rattle.std.specs.Prelude.{◌≡◌, ◌+◌, true, map, string_bytes, IsTrue};
ghost use Rattle.pg_io.specs.Io.{TakesAtMost};
ghost use Rattle.record_runs.specs.Texts.{input_limit};
ghost use Rattle.record_runs.specs.Outcome.{ports};
ghost use Rattle.pigale_shell.specs.Kinds.{kind_named};
ghost use Rattle.pigale_shell.specs.JobInput.{reads_input as reads_input_of};
ghost use Rattle.pigale_shell.specs.Parts.{PartOutcome, IsPartRun};

use super::embed::run_graph_part;
use super::job_kinds::JobKind;
use super::job_runs::status;
use super::map_jobs::{Bars, Convex, Count, MapJob, Rect, Schnyder, Shift};
use super::planar_jobs::run_planar_part;
use super::top_call::named_kind;
use super::verify::run_figure_part;
use pg_io::{Sink, Source};
use pigale_words::{Status, WordFault};
use record_runs::{Ended, Part};
use std::alloc::Global;

/// How a run over a part of an input ended.
#[derive(Clone, Copy)]
pub struct PartEnd {
    /// Its status, as the program has it.
    pub status: Status,
    /// How many records of the part were answered.
    pub records: u32,
    /// How many of them were refused.
    pub refused: u32,
}

// Says whether `job` reads an input.
fn reads_input(job: JobKind) -> bool
    ensures { result ≡ reads_input_of job }
{
    !matches!(job, JobKind::Made(_, _))
}

// Returns the end of a run that did not begin, with this `status`.
fn unbegun(status: Status) -> PartEnd
    ensures { result.status ≡ status }
{
    PartEnd {
        status,
        records: 0,
        refused: 0,
    }
}

// Runs `job`, one that reads an input, over the records of `src`, those of `part`, and writes its text to `out`. Returns
// how the run ended, and what it counted.
fn run_part<S: Source, K: Sink>(
    alloc: Global,
    job: JobKind,
    part: Part,
    src: &mut S,
    out: &mut K,
) -> Ended
    requires reads { reads_input_of job ≡ true }
    ensures outcome { PartOutcome job part
        (ports (S.left src.old) (S.faults src.old) (K.written out.old) (K.faults out.old))
        (ports (S.left src.new) (S.faults src.new) (K.written out.new) (K.faults out.new)) result.end result.records result.refused }
    ensures limit { TakesAtMost (input_limit + 1) (S.left src.old) (S.left src.new) }
{
    match job {
        JobKind::Maps(MapJob::Count, form) => {
            run_planar_part::<Count, S, K>(alloc, form, part, src, out)
        }
        JobKind::Maps(MapJob::Shift, form) => {
            run_planar_part::<Shift, S, K>(alloc, form, part, src, out)
        }
        JobKind::Maps(MapJob::Schnyder, form) => {
            run_planar_part::<Schnyder, S, K>(alloc, form, part, src, out)
        }
        JobKind::Maps(MapJob::Bars, form) => {
            run_planar_part::<Bars, S, K>(alloc, form, part, src, out)
        }
        JobKind::Maps(MapJob::Convex, form) => {
            run_planar_part::<Convex, S, K>(alloc, form, part, src, out)
        }
        JobKind::Maps(MapJob::Rect, form) => {
            run_planar_part::<Rect, S, K>(alloc, form, part, src, out)
        }
        JobKind::Graphs(form) => run_graph_part(alloc, form, part, src, out),
        JobKind::Figures => run_figure_part(alloc, part, src, out),
        JobKind::Made(_, _) => unreachable!(),
    }
}

/// Runs the job that `words` name, one that reads an input, over `src`, the `part` of a longer input. Writes to `out` the
/// blocks of its records, which are numbered on, and the last line with the sums of all parts so far. Where more parts
/// come, a part that ends well has no last line. Returns the status, and how many records of the part were answered and
/// refused. So an input that is cut at the ends of records has the text of one run, whatever its size.
///
/// Other words have the status `BadWords`, and nothing is written. A part is read as far as an input is, 16777216 bytes.
/// Numbers of records and lines end at 4294967295; beyond them the status is `NoMemory`.
pub fn pigale_part<S: Source, K: Sink>(
    alloc: Global,
    words: &[String],
    part: Part,
    src: &mut S,
    out: &mut K,
) -> PartEnd
    ensures run { IsPartRun (kind_named (map string_bytes words.now)) part
        (ports (S.left src.old) (S.faults src.old) (K.written out.old) (K.faults out.old))
        (ports (S.left src.new) (S.faults src.new) (K.written out.new) (K.faults out.new)) result }
    ensures limit { TakesAtMost (input_limit + 1) (S.left src.old) (S.left src.new) }
{
    match named_kind(alloc, words) {
        Ok(job) => {
            if !reads_input(job) {
                return unbegun(Status::BadWords);
            }
            let ended = run_part(alloc, job, part, src, out);
            PartEnd {
                status: status(ended.end),
                records: ended.records,
                refused: ended.refused,
            }
        }
        Err(WordFault::BadWords) => unbegun(Status::BadWords),
        Err(WordFault::NoMemory) => unbegun(Status::NoMemory),
    }
}
