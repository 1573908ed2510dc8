//! The jobs over planar_code, one module each, and which method answers which job.
ghost use Rattle.std.specs.Prelude.{◌≡◌, ◌↔◌, IsTrue, IfOk, OnOk, OnErr};
ghost use Rattle.pigale_words.specs.Jobs.{HasSize};
ghost use Rattle.pigale_shell.specs.Answer.{IsMapBlock};
ghost use Rattle.pigale_shell.specs.Blocks.{Appends, IsLawful};
ghost use Rattle.pigale_shell.specs.Kinds.{kind_of, says_of, IsSized};

mod bars;
mod convex;
mod count;
mod rect;
mod schnyder;
mod shift;

use super::job_kinds::JobKind;
use super::method::{MapRecord, Method};
use super::record_answers::answer_with;
pub(crate) use bars::Bars;
pub(crate) use convex::Convex;
pub(crate) use count::Count;
use pigale_words::{Form, Job};
pub(crate) use rect::Rect;
pub(crate) use schnyder::Schnyder;
pub(crate) use shift::Shift;
use std::alloc::{AllocError, Global};

/// A job over planar_code.
#[derive(Clone, Copy, PartialEq, Eq)]
pub enum MapJob {
    /// It counts each map.
    Count,
    /// It draws by the shift method.
    Shift,
    /// It draws by Schnyder's coordinates.
    Schnyder,
    /// It draws by bars that see each other.
    Bars,
    /// It draws with convex faces.
    Convex,
    /// It draws a rectangle for each vertex.
    Rect,
}

impl JobKind {
    /// Returns the kind of `job`, by what it reads.
    pub fn of(job: Job) -> JobKind
        ensures kind { result ≡ kind_of job }
        ensures sized { HasSize job → IsSized result }
    {
        match job {
            Job::Count => JobKind::Maps(MapJob::Count, Form::Text),
            Job::Shift(form) => JobKind::Maps(MapJob::Shift, form),
            Job::Schnyder(form) => JobKind::Maps(MapJob::Schnyder, form),
            Job::Bars(form) => JobKind::Maps(MapJob::Bars, form),
            Job::Convex(form) => JobKind::Maps(MapJob::Convex, form),
            Job::Rect(form) => JobKind::Maps(MapJob::Rect, form),
            Job::Gen(size, number) => JobKind::Made(size, number),
            Job::Verify => JobKind::Figures,
            Job::Embed(form) => JobKind::Graphs(form),
        }
    }
}

// Appends the block (answer or refusal) of the job `M` for `given` to `out`. Returns whether it was served.
fn answer_by<M: Method>(
    alloc: Global,
    given: &MapRecord<'_>,
    out: &mut Vec<u8>,
) -> Result<bool, AllocError>
    ensures block { OnOk result (Appends (IsMapBlock M.says given.now.form given.now.number given.now.lists.now) out.old.items out.new.items) }
    ensures served { IfOk result (λ served. IsTrue served ↔ M.says.Serves given.now.lists.now) }
    ensures err { OnErr result (out.new.items ≡ out.old.items) }
{
    let mut method = M::new(alloc);
    answer_with(alloc, &mut method, given, out)
}

/// Appends the block (answer or refusal) of `job` for `given` to `out`. Returns whether it was served, if memory lasts.
pub(crate) fn answer_map(
    alloc: Global,
    job: MapJob,
    given: &MapRecord<'_>,
    out: &mut Vec<u8>,
) -> Result<bool, AllocError>
    ensures block { OnOk result (Appends (IsMapBlock (says_of job) given.now.form given.now.number given.now.lists.now) out.old.items out.new.items) }
    ensures served { IfOk result (λ served. IsTrue served ↔ (says_of job).Serves given.now.lists.now) }
    ensures err { OnErr result (out.new.items ≡ out.old.items) }
{
    match job {
        MapJob::Count => answer_by::<Count>(alloc, given, out),
        MapJob::Shift => answer_by::<Shift>(alloc, given, out),
        MapJob::Schnyder => answer_by::<Schnyder>(alloc, given, out),
        MapJob::Bars => answer_by::<Bars>(alloc, given, out),
        MapJob::Convex => answer_by::<Convex>(alloc, given, out),
        MapJob::Rect => answer_by::<Rect>(alloc, given, out),
    }
}

/// States the law that no job serves a map that it refuses, and none names two conditions.
pub(crate) fn map_jobs_are_lawful()
    ensures { (job : MapJob) → IsLawful (says_of job) }
{
    Count::lawful();
    Shift::lawful();
    Schnyder::lawful();
    Bars::lawful();
    Convex::lawful();
    Rect::lawful();
}
