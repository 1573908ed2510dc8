//! One run of a job by its kind, over a source and a sink, and the status of its end.
ghost use Rattle.std.specs.Prelude.{◌≡◌, ◌⊎◌, ◌+◌, IsFalse};
ghost use Rattle.pg_io.specs.Io.{TakesAtMost};
ghost use Rattle.record_runs.specs.Texts.{input_limit};
ghost use Rattle.record_runs.specs.Outcome.{ports};
ghost use Rattle.pigale_shell.specs.JobInput.{reads_input, left_of};
ghost use Rattle.pigale_shell.specs.Kinds.{IsSized};
ghost use Rattle.pigale_shell.specs.Outcome.{Outcome, status_of};

use super::embed::run_graphs;
use super::gen_job::run_made;
use super::job_kinds::JobKind;
use super::map_jobs::{Bars, Convex, Count, MapJob, Rect, Schnyder, Shift};
use super::planar_jobs::run_planar;
use super::verify::VerifyJob;
use line_inputs::figure_lines::FigureReader;
use pg_io::{Sink, Source};
use pigale_words::Status;
use record_runs::{RunEnd, run_records};
use std::alloc::Global;

/// Converts how the main loop ended to a status.
pub(crate) fn status(end: RunEnd) -> Status
    ensures { result ≡ status_of end }
{
    match end {
        RunEnd::Done => Status::Done,
        RunEnd::SomeRefused => Status::SomeRefused,
        RunEnd::BadInput => Status::BadInput,
        RunEnd::ReadFault => Status::ReadFault,
        RunEnd::WriteFault => Status::WriteFault,
        RunEnd::NoMemory => Status::NoMemory,
    }
}

/// Runs `job` over the records of `src`, to the end of its input or to what stops it. Writes to `out` a block for each
/// record, and the last line. `gen` does not touch `src`; its size is 3 to 4095. Returns the status of the run.
pub fn run_job<S: Source, K: Sink>(alloc: Global, job: JobKind, src: &mut S, out: &mut K) -> Status
    requires sized { IsSized job }
    ensures outcome { Outcome job
        (ports (left_of job (S.left src.old)) (S.faults src.old) (K.written out.old) (K.faults out.old))
        (ports (left_of job (S.left src.new)) (S.faults src.new) (K.written out.new) (K.faults out.new)) result }
    ensures no_input { IsFalse (reads_input job) →
        (src.new ≡ src.old) × ((result ≡ Status.Done) ⊎ (result ≡ Status.WriteFault) ⊎ (result ≡ Status.NoMemory)) }
    ensures limit { TakesAtMost (input_limit + 1) (S.left src.old) (S.left src.new) }
{
    match job {
        JobKind::Maps(MapJob::Count, form) => {
            status(run_planar::<Count, S, K>(alloc, form, src, out))
        }
        JobKind::Maps(MapJob::Shift, form) => {
            status(run_planar::<Shift, S, K>(alloc, form, src, out))
        }
        JobKind::Maps(MapJob::Schnyder, form) => {
            status(run_planar::<Schnyder, S, K>(alloc, form, src, out))
        }
        JobKind::Maps(MapJob::Bars, form) => {
            status(run_planar::<Bars, S, K>(alloc, form, src, out))
        }
        JobKind::Maps(MapJob::Convex, form) => {
            status(run_planar::<Convex, S, K>(alloc, form, src, out))
        }
        JobKind::Maps(MapJob::Rect, form) => {
            status(run_planar::<Rect, S, K>(alloc, form, src, out))
        }
        JobKind::Graphs(form) => status(run_graphs(alloc, form, src, out)),
        JobKind::Figures => {
            let mut job = VerifyJob::new(alloc);
            status(run_records(alloc, FigureReader::new(alloc), &mut job, src, out))
        }
        JobKind::Made(size, number) => status(run_made(alloc, size, number, out)),
    }
}
