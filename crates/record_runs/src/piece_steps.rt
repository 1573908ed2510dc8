//! One piece of the input: records are taken from it, and their blocks appended to a buffer.
ghost use Rattle.std.specs.Prelude.{◌≡◌, ◌<◌, ◌≤◌, ◌+◌, ◌-◌, ◌^◌, if◌then◌else◌, ◌++◌, List, ℕ, length, take, IfOk, OnOk, MatchResult};
ghost use Rattle.record_runs.specs.Texts.{input_limit};
ghost use Rattle.record_runs.specs.Run.{IsCounted, IsAt, Stops};

use super::INPUT_LIMIT;
use super::format::{Format, Taken};
use super::job::Job;
use super::main_loop::{Run, Stop};

// Adds one to `run.records`, and also to `run.refused` where the record was not `served`.
fn count_record<F: Format>(run: &mut Run<F>, served: bool)
    requires few_records { run.old.records < 2 ^ 32 - 1 }
    requires few_refused { run.old.refused ≤ run.old.records }
    ensures { run.new ≡ record run.old { records = run.old.records + 1; refused = run.old.refused + (if served then 0 else 1) } }
{
    run.records += 1;
    if !served {
        run.refused += 1;
    }
}

// Consumes some of `piece`, not empty, with `run.reader`, to the end of a record at most, and updates the counts of
// `run`. If a record ends, appends its block (the answer of `job`) to `text`. Returns the number of bytes consumed, or
// why the run stops.
fn take_record<F: Format, J: Job<F>>(
    run: &mut Run<F>,
    job: &mut J,
    piece: &[u8],
    text: &mut Vec<u8>,
) -> Result<usize, Stop<F::End>>
    requires counted { IsCounted (F.place run.old.reader) run.old.records run.old.refused run.old.taken }
    requires some_bytes { 0 < length piece.now }
    requires room { run.old.taken + length piece.now ≤ input_limit }
    ensures counted { OnOk result (IsCounted (F.place run.new.reader) run.new.records run.new.refused run.new.taken) }
    ensures moved { IfOk result (λ k. (0 < k) × (k ≤ length piece.now) × (run.new.taken ≡ run.old.taken + k)) }
    ensures at { (consumed front : List ℕ) →
        IsAt F.At (J.answers (J.kind job.old)) consumed (front ++ text.old.items) run.old.reader run.old.records run.old.refused →
        MatchResult result
        (λ k. IsAt F.At (J.answers (J.kind job.old)) (consumed ++ take k piece.now) (front ++ text.new.items) run.new.reader run.new.records run.new.refused)
        (Stops F.reads (J.answers (J.kind job.old)) (consumed ++ piece.now) (front ++ text.new.items) run.new.records run.new.refused) }
    ensures same { J.kind job.new ≡ J.kind job.old }
{
    F::lawful();
    match run.reader.take(piece) {
        Err(_) => Err(Stop::NoMemory),
        Ok(Taken::Bad(end)) => Err(Stop::Bad(end)),
        Ok(Taken::Goes(k)) => {
            run.taken += k;
            Ok(k)
        }
        Ok(Taken::Ended(k)) => match job.answer(run.records + 1, run.reader.record(), text) {
            Err(_) => Err(Stop::NoMemory),
            Ok(served) => {
                count_record(run, served);
                run.taken += k;
                Ok(k)
            }
        },
    }
}

// Consumes all of `piece`, which is within the limit, by `take_record`: updates `run`, and appends the blocks (answers
// of `job`) of the records that end in it to `text`. Returns as an error why the run stops, if it does.
fn take_within<F: Format, J: Job<F>>(
    run: &mut Run<F>,
    job: &mut J,
    piece: &[u8],
    text: &mut Vec<u8>,
) -> Result<(), Stop<F::End>>
    requires counted { IsCounted (F.place run.old.reader) run.old.records run.old.refused run.old.taken }
    requires room { run.old.taken + length piece.now ≤ input_limit }
    ensures counted { OnOk result (IsCounted (F.place run.new.reader) run.new.records run.new.refused run.new.taken) }
    ensures moved { OnOk result (run.new.taken ≡ run.old.taken + length piece.now) }
    ensures at { (consumed front : List ℕ) →
        IsAt F.At (J.answers (J.kind job.old)) consumed (front ++ text.old.items) run.old.reader run.old.records run.old.refused →
        MatchResult result
        (λ _. IsAt F.At (J.answers (J.kind job.old)) (consumed ++ piece.now) (front ++ text.new.items) run.new.reader run.new.records run.new.refused)
        (Stops F.reads (J.answers (J.kind job.old)) (consumed ++ piece.now) (front ++ text.new.items) run.new.records run.new.refused) }
    ensures same { J.kind job.new ≡ J.kind job.old }
{
    let mut done = 0;
    while done < piece.len() {
        match take_record(run, job, &piece[done..], text) {
            Ok(k) => done += k,
            Err(stop) => return Err(stop),
        }
    }
    Ok(())
}

/// Consumes `piece`, as far as the limit on the input allows, and updates `run`. Appends to `text` the blocks (answers
/// of `job`) of the records that end in it. Returns as an error why the run stops in `piece`, if it does.
pub fn take_piece<F: Format, J: Job<F>>(
    run: &mut Run<F>,
    job: &mut J,
    piece: &[u8],
    text: &mut Vec<u8>,
) -> Result<(), Stop<F::End>>
    requires { IsCounted (F.place run.old.reader) run.old.records run.old.refused run.old.taken }
    ensures counted { OnOk result (IsCounted (F.place run.new.reader) run.new.records run.new.refused run.new.taken) }
    ensures moved { OnOk result (run.new.taken ≡ run.old.taken + length piece.now) }
    ensures at { (consumed front : List ℕ) →
        IsAt F.At (J.answers (J.kind job.old)) consumed (front ++ text.old.items) run.old.reader run.old.records run.old.refused →
        MatchResult result
        (λ _. IsAt F.At (J.answers (J.kind job.old)) (consumed ++ piece.now) (front ++ text.new.items) run.new.reader run.new.records run.new.refused)
        (Stops F.reads (J.answers (J.kind job.old)) (consumed ++ piece.now) (front ++ text.new.items) run.new.records run.new.refused) }
    ensures same { J.kind job.new ≡ J.kind job.old }
{
    F::lawful();
    let room = INPUT_LIMIT - run.taken;
    if piece.len() <= room {
        return take_within(run, job, piece, text);
    }
    match take_within(run, job, &piece[..room], text) {
        Ok(()) => Err(Stop::Bad(run.reader.too_long())),
        Err(stop) => Err(stop),
    }
}
