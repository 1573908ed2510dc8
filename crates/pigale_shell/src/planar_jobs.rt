//! planar_code as a format of the main loop, and the jobs over it.
ghost use Rattle.std.specs.Prelude.{◌≡◌, ◌+◌, true};
ghost use Rattle.pg_io.specs.Io.{TakesAtMost};
ghost use Rattle.record_runs.specs.Texts.{input_limit};
ghost use Rattle.record_runs.specs.Outcome.{ports, Outcome as RunOutcome, Counts};
ghost use Rattle.record_runs.specs.Parts.{part_answers};
ghost use Rattle.pigale_shell.specs.Answer.{planar_answers};
ghost use Rattle.pigale_shell.specs.PlanarCode.{planar_code, ended_well, ending_behind};

use super::form_printer::line_in;
use super::method::{MapRecord, Method};
use super::output_lines::{Ending, last_line};
use super::record_answers::answer_with;
use map_lists::Rotations;
use pg_io::{Sink, Source};
use pigale_words::Form;
use planar_code::{RecordReader, Taken as Found};
use record_runs::{
    Ended, Format, Job as RecordJob, Part, PartJob, RunEnd, Taken, run_counted, run_records,
};
use std::alloc::{AllocError, Global};

/// The reader of planar_code, as a format of the main loop.
#[derive(Drop)]
pub struct PlanarReader {
    reader: RecordReader,
    ghost front: { reader.header_may_come ≡ true → reader.start ≡ 0 },
}

impl PlanarReader {
    ghost use Rattle.planar_code.specs.State.{at_front};

    /// Makes a reader, before the first byte of a file. It takes no memory.
    pub fn new(alloc: Global) -> PlanarReader
        ensures { result.reader ≡ at_front }
    {
        PlanarReader {
            reader: RecordReader::new(alloc),
        }
    }
}

impl Format for PlanarReader {
    ghost use Rattle.planar_code.specs.Progress.{Progress};
    ghost use Rattle.pigale_shell.specs.PlanarCode.{planar_code, ended_well, ending_behind, place_of, end_here, IsGiven};

    type Record = Rotations;

    type End = Ending;

    ghost reads = { planar_code };

    ghost At = { λ format consumed records. Progress consumed records format.reader };

    ghost place = { λ format. place_of format.reader };

    ghost lent = { λ format. format.reader.lists };

    ghost ending = { λ format. end_here format.reader };

    ghost ended_well = { ended_well };

    ghost ending_behind = { ending_behind };

    ghost IsGiven = { IsGiven };

    // Passes `piece` to the planar_code reader. Returns `Goes` with its length if no record ended. `Ended` has the
    // bytes to the end of a record, which `record` then lends. `Bad` has the ending `BadCount` at the record's offset.
    fn take(&mut self, piece: &[u8]) -> Result<Taken<Ending>, AllocError> {
        match self.reader.take(piece)? {
            Found::More => Ok(Taken::Goes(piece.len())),
            Found::Ended(k) => Ok(Taken::Ended(k)),
            Found::Bad(_, place) => Ok(Taken::Bad(Ending::BadCount(place))),
        }
    }

    // Returns the lists of the record that ended last.
    fn record(&self) -> &Rotations {
        self.reader.lists()
    }

    // Returns how the input ends if it ends here: `Well` between records, else `EndInRecord` with the record's offset.
    fn end(&self) -> Ending {
        if self.reader.is_between() {
            Ending::Well
        } else {
            Ending::EndInRecord(self.reader.start())
        }
    }

    // Returns `TooLong`, the ending of an input of more than 16777216 bytes.
    fn too_long(&self) -> Ending {
        Ending::TooLong
    }

    // Says whether `end` is the good ending, `Well`. Any other is a bad one.
    fn is_well(end: &Ending) -> bool {
        matches!(end, Ending::Well)
    }

    // Returns `end` with its offset as it is counted behind `before` bytes. `None` beyond the numbers of a `usize`.
    fn end_behind(end: &Ending, before: usize) -> Option<Ending> {
        match *end {
            Ending::EndInRecord(at) => Some(Ending::EndInRecord(before.checked_add(at)?)),
            Ending::BadCount(at) => Some(Ending::BadCount(before.checked_add(at)?)),
            Ending::Well => Some(Ending::Well),
            Ending::TooLong => Some(Ending::TooLong),
        }
    }

    // Does nothing. Its contract is the four laws that `Format::lawful` states, for this reader.
    fn lawful() {}
}

/// A job over planar_code, as text or SVG. Its method keeps memory from record to record.
#[derive(Drop)]
pub struct PlanarJob<M> {
    alloc: Global,
    form: Form,
    method: M,
}

impl<M: Method> PlanarJob<M> {
    /// Makes a job, before the first record. It takes no memory.
    pub fn new(alloc: Global, form: Form) -> PlanarJob<M>
        ensures { result.form ≡ form }
    {
        PlanarJob {
            alloc,
            form,
            method: M::new(alloc),
        }
    }
}

impl<M: Method> RecordJob<PlanarReader> for PlanarJob<M> {
    ghost use Rattle.pigale_shell.specs.Answer.{planar_answers};

    type Kind = Form;

    ghost kind = { λ planar. planar.form };

    ghost answers = { λ form. planar_answers M.says form };

    // Appends to `out` the block (answer or refusal) of `given`, record `number`, by the method of the job. Returns
    // whether it was served. When memory runs out `out` is unchanged.
    fn answer(
        &mut self,
        number: u32,
        given: &Rotations,
        out: &mut Vec<u8>,
    ) -> Result<bool, AllocError> {
        let record = MapRecord {
            form: self.form,
            number,
            lists: given,
        };
        answer_with(self.alloc, &mut self.method, &record, out)
    }

    // Returns the last line: the counts `records` and `refused`, or the bad ending `end`, as text or SVG comment.
    fn last_line(
        &self,
        alloc: Global,
        records: u32,
        refused: u32,
        end: &Ending,
    ) -> Result<Vec<u8>, AllocError> {
        let line = last_line(alloc, records, refused, *end)?;
        line_in(alloc, self.form, line)
    }
}

/// Runs the job `M` over the planar_code of `src`, and writes to `out` in `form`. Returns how the run ended.
pub(crate) fn run_planar<M: Method, S: Source, K: Sink>(
    alloc: Global,
    form: Form,
    src: &mut S,
    out: &mut K,
) -> RunEnd
    ensures outcome { RunOutcome planar_code (planar_answers M.says form)
        (ports (S.left src.old) (S.faults src.old) (K.written out.old) (K.faults out.old))
        (ports (S.left src.new) (S.faults src.new) (K.written out.new) (K.faults out.new)) result }
    ensures limit { TakesAtMost (input_limit + 1) (S.left src.old) (S.left src.new) }
{
    let mut planar = PlanarJob::<M>::new(alloc, form);
    run_records(alloc, PlanarReader::new(alloc), &mut planar, src, out)
}

/// Runs the job `M` over `part` of an input of planar_code, the bytes of `src`, and writes to `out` in `form`. Returns
/// how the run ended, and what it counted.
pub(crate) fn run_planar_part<M: Method, S: Source, K: Sink>(
    alloc: Global,
    form: Form,
    part: Part,
    src: &mut S,
    out: &mut K,
) -> Ended
    ensures outcome { RunOutcome planar_code (part_answers ended_well ending_behind (planar_answers M.says form) part)
        (ports (S.left src.old) (S.faults src.old) (K.written out.old) (K.faults out.old))
        (ports (S.left src.new) (S.faults src.new) (K.written out.new) (K.faults out.new)) result.end }
    ensures counts { Counts planar_code (part_answers ended_well ending_behind (planar_answers M.says form) part) (S.left src.old)
        result.records result.refused result.end }
    ensures limit { TakesAtMost (input_limit + 1) (S.left src.old) (S.left src.new) }
{
    let mut planar = PlanarJob::<M>::new(alloc, form);
    let mut job = PartJob {
        job: &mut planar,
        part,
    };
    run_counted(alloc, PlanarReader::new(alloc), &mut job, src, out)
}
