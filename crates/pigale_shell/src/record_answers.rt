//! The answer to one record of planar_code, as text or SVG: its block, or the line that refuses it.
ghost use Rattle.std.specs.Prelude.{◌≡◌, ◌<◌, ◌↔◌, length, IsTrue, IfOk, OnOk, OnErr};
ghost use Rattle.pigale_shell.specs.Text.{refusal_line as refusal_line_of};
ghost use Rattle.pigale_shell.specs.Forms.{line_in as line_by};
ghost use Rattle.pigale_shell.specs.Blocks.{Appends};
ghost use Rattle.pigale_shell.specs.Kinds.{kind_of};
ghost use Rattle.pigale_shell.specs.Answer.{IsMapBlock, IsBlock, ServesRecord, reads_planar};

use super::form_printer::line_in;
use super::job_kinds::JobKind;
use super::map_jobs::answer_map;
use super::method::{MapRecord, Method};
use super::output_lines::refusal_line;
use half_edges::Rotations;
use pigale_words::{Form, Job};
use refusals::{Refusal, Unserved};
use std::alloc::{AllocError, Global};

/// Appends to `out` the block of `job`, one over planar_code, for a record with these `lists`, from 1 to 4095 of
/// them. Returns whether the record was served. The record's `number` is counted from 1. When memory runs out `out` is
/// unchanged.
pub fn answer_record(
    alloc: Global,
    job: Job,
    number: u32,
    lists: &Rotations,
    out: &mut Vec<u8>,
) -> Result<bool, AllocError>
    requires planar { IsTrue (reads_planar (kind_of job)) }
    requires from_one { 0 < number }
    requires some_list { 0 < length lists.now }
    ensures block { OnOk result (Appends (IsBlock (kind_of job) number lists.now) out.old.items out.new.items) }
    ensures served { IfOk result (ServesRecord (kind_of job) lists.now) }
    ensures err { OnErr result (out.new.items ≡ out.old.items) }
{
    match JobKind::of(job) {
        JobKind::Maps(job, form) => {
            let given = MapRecord {
                form,
                number,
                lists,
            };
            answer_map(alloc, job, &given, out)
        }
        _ => unreachable!(),
    }
}

/// Appends to `out` the block of the map `given` by `method`, which may have answered others before: its answer, or the
/// line that refuses it. Returns whether the map was served. When memory runs out `out` is unchanged.
pub(crate) fn answer_with<M: Method>(
    alloc: Global,
    method: &mut M,
    given: &MapRecord<'_>,
    out: &mut Vec<u8>,
) -> Result<bool, AllocError>
    ensures block { OnOk result (Appends (IsMapBlock M.says given.now.form given.now.number given.now.lists.now) out.old.items out.new.items) }
    ensures served { IfOk result (λ served. IsTrue served ↔ M.says.Serves given.now.lists.now) }
    ensures err { OnErr result (out.new.items ≡ out.old.items) }
{
    M::lawful();
    match method.figure(given.lists) {
        Ok(figure) => {
            method.print(given, &figure, out)?;
            method.keep(figure);
            Ok(true)
        }
        Err(Unserved::Refused(refusal)) => {
            let line = refusal_line_in_form(alloc, given.form, given.number, refusal)?;
            out.extend_from_slice(&line)?;
            Ok(false)
        }
        Err(Unserved::NoMemory) => Err(AllocError),
    }
}

/// Returns the line that refuses record `number` for the condition `refusal`, as text or as an SVG comment.
pub(crate) fn refusal_line_in_form(
    alloc: Global,
    form: Form,
    number: u32,
    refusal: Refusal,
) -> Result<Vec<u8>, AllocError>
    ensures { IfOk result (λ line. line.items ≡ line_by form (refusal_line_of number refusal)) }
{
    let line = refusal_line(alloc, number, refusal)?;
    line_in(alloc, form, line)
}
