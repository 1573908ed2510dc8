//! `PartJob`: a job over one part of a longer input, as it answers the whole.
ghost use Rattle.record_runs.specs.Parts.{part_answers};

use super::format::Format;
use super::job::Job;
use std::alloc::{AllocError, Global};

/// What stands in an input before a part of it.
#[derive(Clone, Copy)]
pub struct Before {
    /// How many records.
    pub records: u32,
    /// How many of them were refused.
    pub refused: u32,
    /// What places count: bytes of planar_code, lines of figures, graphs of graph6.
    pub place: usize,
}

/// A part of an input: what stands before it, and whether more comes behind it.
#[derive(Clone, Copy)]
pub struct Part {
    /// What stands before it.
    pub before: Before,
    /// Whether more parts come. Then an ending that is good is none of the input, and has no last line.
    pub goes_on: bool,
}

/// The kind of a job over a part: the kind of the job, and the part.
#[derive(Clone, Copy)]
pub struct PartKind<Kind> {
    /// The kind of the job.
    pub of: Kind,
    /// The part.
    pub part: Part,
}

/// A job over a part of an input: its records are numbered on, and its last line has the sums of all parts so far.
#[derive(Drop)]
pub struct PartJob<'a, J> {
    /// The job.
    pub job: &'a mut J,
    /// The part.
    pub part: Part,
}

impl<F: Format, J: Job<F>> Job<F> for PartJob<'_, J> {
    type Kind = PartKind<J::Kind>;

    ghost kind = { λ given. record { of = J.kind given.job.now; part = given.part } };

    ghost answers = { λ kind. part_answers F.ended_well F.ending_behind (J.answers kind.of) kind.part };

    // Appends the block of `given` to `out`, as the job does for the record of the whole input: `number` is counted from
    // the part's first record. Out of memory, and where the numbers of records end, `out` is unchanged.
    fn answer(
        &mut self,
        number: u32,
        given: &F::Record,
        out: &mut Vec<u8>,
    ) -> Result<bool, AllocError> {
        match self.part.before.records.checked_add(number) {
            Some(number) => self.job.answer(number, given, out),
            None => Err(AllocError),
        }
    }

    // Returns the job's last line with the sums of all parts so far, `records` and `refused` being those of this part,
    // and with the place of a bad ending `end` in the whole. A good ending where more parts come has none.
    fn last_line(
        &self,
        alloc: Global,
        records: u32,
        refused: u32,
        end: &F::End,
    ) -> Result<Vec<u8>, AllocError> {
        if self.part.goes_on && F::is_well(end) {
            return Ok(Vec::new(alloc));
        }
        let before = self.part.before;
        let end = F::end_behind(end, before.place).ok_or(AllocError)?;
        let records = before.records.checked_add(records).ok_or(AllocError)?;
        let refused = before.refused.checked_add(refused).ok_or(AllocError)?;
        self.job.last_line(alloc, records, refused, &end)
    }
}
