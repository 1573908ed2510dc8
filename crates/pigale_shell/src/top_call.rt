//! The top call `pigale`: it runs the job that the words of a command name.
ghost use Rattle.std.specs.Prelude.{◌≡◌, ◌≢◌, ◌⊎◌, ◌+◌, ◌<◌, ℕ, List, [], map, string_bytes, Some, None, IsFalse, IfOk, MatchResult};
ghost use Rattle.pigale_shell.specs.Text.{bad_words_line};
ghost use Rattle.pg_io.specs.Io.{WhereTold, Grows, HasRisen, TakesAtMost};
ghost use Rattle.record_runs.specs.Texts.{input_limit};
ghost use Rattle.pigale_words.specs.Status.{RefusesWords};
ghost use Rattle.pigale_shell.specs.Kinds.{kind_named, IsSized};
ghost use Rattle.pigale_shell.specs.Outcome.{Writes, WritesTaken, GrowsByText, MayEnd};
ghost use Rattle.pigale_shell.specs.JobInput.{RecordOf, EndingOf, reads_of, reads_input, left_of};

use super::job_kinds::JobKind;
use super::job_runs::run_job;
use pg_io::{Sink, Source, put_all};
use pigale_words::{Status, WordFault, words_to_job};
use std::alloc::Global;

/// Returns the kind of job that `words`, those after the program's name, name; or else `BadWords` or `NoMemory`.
pub(crate) fn named_kind(alloc: Global, words: &[String]) -> Result<JobKind, WordFault>
    ensures job { MatchResult result
        (λ job. kind_named (map string_bytes words.now) ≡ Some job)
        (RefusesWords (kind_named (map string_bytes words.now))) }
    ensures sized { IfOk result IsSized }
{
    let job = words_to_job(alloc, words)?;
    Ok(JobKind::of(job))
}

/// Runs the job that `words` name, the words after the program's name, over the records of `src`. Writes its text to
/// `out`, or the line `stop BadWords` where they name no job.
///
/// A job that makes its record has the empty input, whatever the source holds, and does not touch it. The clauses on
/// the bytes of source and sink hold where contracts see these. Only `NoMemory` may come without a proved cause.
pub fn pigale<S: Source, K: Sink>(
    alloc: Global,
    words: &[String],
    src: &mut S,
    out: &mut K,
) -> Status
    // The words are those of a job, its whole input was read and ended well, and the sink grew by its text: one block
    // for each record, in order, and the last line, which says that none was refused.
    ensures done { result ≡ Status.Done → (job : JobKind) × (kind_named (map string_bytes words.now) ≡ Some job)
        × WhereTold (left_of job (S.left src.old)) (λ input. (left_of job (S.left src.new) ≡ Some [])
        × Writes job input (reads_of job).well 0 (K.written out.old) (K.written out.new)) }

    // At the end of the input, and the last line says how many records were refused.
    ensures some_refused { result ≡ Status.SomeRefused → (job : JobKind) × (kind_named (map string_bytes words.now) ≡ Some job)
        × WhereTold (left_of job (S.left src.old)) (λ input. (left_of job (S.left src.new) ≡ Some [])
        × (refused : ℕ) × (0 < refused) × Writes job input (reads_of job).well refused (K.written out.old) (K.written out.new)) }

    // The words are bad, the source is as it was, and the sink grew by one line.
    ensures bad_words { result ≡ Status.BadWords → (kind_named (map string_bytes words.now) ≡ None)
        × (src.new ≡ src.old) × Grows (K.written out.old) (K.written out.new) bad_words_line }

    // Words that are bad are never taken for a job, and the source is then not touched.
    ensures words_refused { kind_named (map string_bytes words.now) ≡ None →
        (src.new ≡ src.old) × ((result ≡ Status.BadWords) ⊎ (result ≡ Status.WriteFault) ⊎ (result ≡ Status.NoMemory)) }

    // The input has a bad ending, and the sink grew by the blocks before it and the line that names just that ending.
    ensures bad_input { result ≡ Status.BadInput → (job : JobKind) × (kind_named (map string_bytes words.now) ≡ Some job)
        × WhereTold (left_of job (S.left src.old)) (λ input. (ending : EndingOf job) × (reads_of job).IsBad ending
        × (refused : ℕ) × Writes job input ending refused (K.written out.old) (K.written out.new)) }

    // A read failed, and the sink grew by the blocks of just those records that end within the bytes taken.
    ensures read_fault { result ≡ Status.ReadFault → HasRisen (S.faults src.old) (S.faults src.new)
        × (job : JobKind) × (kind_named (map string_bytes words.now) ≡ Some job)
        × WhereTold (left_of job (S.left src.old)) (λ input. WritesTaken job input (left_of job (S.left src.new)) (K.written out.old) (K.written out.new)) }

    // A write failed, and the sink grew by some first bytes of the text.
    ensures write_fault { result ≡ Status.WriteFault → HasRisen (K.faults out.old) (K.faults out.new)
        × GrowsByText (kind_named (map string_bytes words.now)) (S.left src.old) (K.written out.old) (K.written out.new) }

    // Memory was wanting, and the sink grew by some first bytes of the text.
    ensures no_memory { result ≡ Status.NoMemory →
        GrowsByText (kind_named (map string_bytes words.now)) (S.left src.old) (K.written out.old) (K.written out.new) }

    // With good words and no failure, the ending of the input's reading decides the status, unless memory was wanting.
    ensures complete { (job : JobKind) (input : List ℕ) (records : List (RecordOf job)) (ending : EndingOf job) →
        kind_named (map string_bytes words.now) ≡ Some job → left_of job (S.left src.old) ≡ Some input → (reads_of job).IsReading input records ending
        → ¬ HasRisen (S.faults src.old) (S.faults src.new) → ¬ HasRisen (K.faults out.old) (K.faults out.new)
        → MayEnd job ending result }

    // A job that reads no input leaves the source as it was, and its map is drawn unless a write failed or memory was
    // wanting.
    ensures no_input { (job : JobKind) → kind_named (map string_bytes words.now) ≡ Some job → IsFalse (reads_input job) →
        (src.new ≡ src.old) × ((result ≡ Status.Done) ⊎ (result ≡ Status.WriteFault) ⊎ (result ≡ Status.NoMemory)) }

    // At most 2^24 bytes are taken, and the one after them.
    ensures limit { TakesAtMost (input_limit + 1) (S.left src.old) (S.left src.new) }

    // A fault ends the run, and the status says so.
    ensures reads_kept { result ≢ Status.ReadFault → S.faults src.new ≡ S.faults src.old }
    ensures writes_kept { result ≢ Status.WriteFault → K.faults out.new ≡ K.faults out.old }
{
    match named_kind(alloc, words) {
        Ok(job) => run_job(alloc, job, src, out),
        Err(WordFault::BadWords) => match put_all(out, b"stop BadWords\n") {
            Ok(()) => Status::BadWords,
            Err(_) => Status::WriteFault,
        },
        Err(WordFault::NoMemory) => Status::NoMemory,
    }
}
