//! The promise of the program: the clauses of the top call, said again and proved by the call alone.
//!
//! A clause that is taken away from the top call, or weakened, fails here. What each says stands there.
ghost use Rattle.std.specs.Prelude.{◌≡◌, ◌≢◌, ◌⊎◌, ◌+◌, ◌^◌, ◌<◌, ℕ, List, [], map, string_bytes, Some, None, IsFalse};
ghost use Rattle.pg_io.specs.Io.{WhereTold, Grows, HasRisen, TakesAtMost};
ghost use Rattle.pigale_shell.specs.Text.{bad_words_line};
ghost use Rattle.pigale_shell.specs.Kinds.{kind_named};
ghost use Rattle.pigale_shell.specs.Outcome.{Writes, WritesTaken, GrowsByText, MayEnd};
ghost use Rattle.pigale_shell.specs.JobInput.{RecordOf, EndingOf, reads_of, reads_input, left_of};
ghost use Rattle.pigale_shell.specs.declared.job_kinds.JobKind.{JobKind};

use pg_io::{Sink, Source};
use pigale_shell::{Status, pigale};
use std::alloc::Global;

/// Runs the top call on the `words` after the program's name, with the source `src` and the sink `out`, and returns
/// its status.
pub fn run<S: Source, K: Sink>(alloc: Global, words: &[String], src: &mut S, out: &mut K) -> Status
    ensures done { result ≡ Status.Done → (job : JobKind) × (kind_named (map string_bytes words.now) ≡ Some job)
        × WhereTold (left_of job (S.left src.old)) (λ input. (left_of job (S.left src.new) ≡ Some [])
        × Writes job input (reads_of job).well 0 (K.written out.old) (K.written out.new)) }
    ensures some_refused { result ≡ Status.SomeRefused → (job : JobKind) × (kind_named (map string_bytes words.now) ≡ Some job)
        × WhereTold (left_of job (S.left src.old)) (λ input. (left_of job (S.left src.new) ≡ Some [])
        × (refused : ℕ) × (0 < refused) × Writes job input (reads_of job).well refused (K.written out.old) (K.written out.new)) }
    ensures bad_words { result ≡ Status.BadWords → (kind_named (map string_bytes words.now) ≡ None)
        × (src.new ≡ src.old) × Grows (K.written out.old) (K.written out.new) bad_words_line }
    ensures words_refused { kind_named (map string_bytes words.now) ≡ None →
        (src.new ≡ src.old) × ((result ≡ Status.BadWords) ⊎ (result ≡ Status.WriteFault) ⊎ (result ≡ Status.NoMemory)) }
    ensures bad_input { result ≡ Status.BadInput → (job : JobKind) × (kind_named (map string_bytes words.now) ≡ Some job)
        × WhereTold (left_of job (S.left src.old)) (λ input. (ending : EndingOf job) × (reads_of job).IsBad ending
        × (refused : ℕ) × Writes job input ending refused (K.written out.old) (K.written out.new)) }
    ensures read_fault { result ≡ Status.ReadFault → HasRisen (S.faults src.old) (S.faults src.new)
        × (job : JobKind) × (kind_named (map string_bytes words.now) ≡ Some job)
        × WhereTold (left_of job (S.left src.old)) (λ input. WritesTaken job input (left_of job (S.left src.new)) (K.written out.old) (K.written out.new)) }
    ensures write_fault { result ≡ Status.WriteFault → HasRisen (K.faults out.old) (K.faults out.new)
        × GrowsByText (kind_named (map string_bytes words.now)) (S.left src.old) (K.written out.old) (K.written out.new) }
    ensures no_memory { result ≡ Status.NoMemory →
        GrowsByText (kind_named (map string_bytes words.now)) (S.left src.old) (K.written out.old) (K.written out.new) }
    ensures complete { (job : JobKind) (input : List ℕ) (records : List (RecordOf job)) (ending : EndingOf job) →
        kind_named (map string_bytes words.now) ≡ Some job → left_of job (S.left src.old) ≡ Some input → (reads_of job).IsReading input records ending
        → ¬ HasRisen (S.faults src.old) (S.faults src.new) → ¬ HasRisen (K.faults out.old) (K.faults out.new)
        → MayEnd job ending result }
    ensures no_input { (job : JobKind) → kind_named (map string_bytes words.now) ≡ Some job → IsFalse (reads_input job) →
        (src.new ≡ src.old) × ((result ≡ Status.Done) ⊎ (result ≡ Status.WriteFault) ⊎ (result ≡ Status.NoMemory)) }
    ensures limit { TakesAtMost (2 ^ 24 + 1) (S.left src.old) (S.left src.new) }
    ensures reads_kept { result ≢ Status.ReadFault → S.faults src.new ≡ S.faults src.old }
    ensures writes_kept { result ≢ Status.WriteFault → K.faults out.new ≡ K.faults out.old }
{
    pigale(alloc, words, src, out)
}
