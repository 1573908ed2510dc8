//! The trait `Job`: how each record is answered by a block, and the last line of a run.
ghost use Rattle.std.specs.Prelude.{◌≡◌, ◌<◌, ◌++◌, List, ℕ, IfOk, OnOk, OnErr};
ghost use Rattle.record_runs.specs.Texts.{Answers};

use super::format::Format;
use std::alloc::{AllocError, Global};

/// Answers the records of a format. It may keep memory of its own from record to record.
pub trait Job<F: Format> {
    /// Which job it is.
    type Kind;

    ghost kind: { Self → Self.Kind };

    /// The texts that a job of this kind writes.
    ghost answers: { Self.Kind → Answers F.Record F.End };

    /// Appends the block (the answering text) of `given`, record `number` from 1, to `out`. Returns whether the record
    /// was served, not refused. When memory runs out `out` is unchanged.
    fn answer(
        &mut self,
        number: u32,
        given: &F::Record,
        out: &mut Vec<u8>,
    ) -> Result<bool, AllocError>
        requires from_one { 0 < number }
        requires fits { F.IsGiven given.now }
        ensures block { OnOk result ((block : List ℕ) × (answers (kind self.old)).IsBlock number given.now block
            × (out.new.items ≡ out.old.items ++ block)) }
        ensures served { IfOk result ((answers (kind self.old)).Serves given.now) }
        ensures err { OnErr result (out.new.items ≡ out.old.items) }
        ensures same { kind self.new ≡ kind self.old };

    /// Returns the last line of a run over `records` records, `refused` of them refused, with the input's ending `end`.
    fn last_line(
        &self,
        alloc: Global,
        records: u32,
        refused: u32,
        end: &F::End,
    ) -> Result<Vec<u8>, AllocError>
        ensures { IfOk result (λ line. line.items ≡ (answers (kind self.now)).last_line records refused end.now) };
}
