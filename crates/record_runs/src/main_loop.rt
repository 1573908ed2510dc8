//! The main loop: a run from a source to a sink, read by read, with its last line.
ghost use Rattle.std.specs.Prelude.{◌≡◌, ◌<◌, ◌≤◌, ◌+◌, ◌^◌, ◌++◌, [], List, ℕ, Option, length, OnOk, IfErr, MatchResult};
ghost use Rattle.pg_io.specs.Io.{Grows, TakesAtMost};
ghost use Rattle.record_runs.specs.Texts.{input_limit};
ghost use Rattle.record_runs.specs.Outcome.{Ports, ports, Outcome, Counts};
ghost use Rattle.record_runs.specs.Run.{IsCounted, IsAt, Stands, FailsAt, IsAllConsumed, end_of};

use super::format::Format;
use super::job::Job;
use super::piece_steps::take_piece;
use super::{BUFFER, INPUT_LIMIT};
use pg_io::{Sink, Source, put_all};
use std::alloc::Global;

/// How a run ended.
#[derive(Clone, Copy, PartialEq, Eq)]
pub enum RunEnd {
    /// The input ended well, and no record was refused.
    Done,
    /// The input ended well, and some record was refused.
    SomeRefused,
    /// The input ends badly, in the way that the last line names.
    BadInput,
    /// A read failed.
    ReadFault,
    /// A write failed.
    WriteFault,
    /// There was not enough memory.
    NoMemory,
}

/// How a run ended, and what it counted.
#[derive(Clone, Copy)]
pub struct Ended {
    /// How it ended.
    pub end: RunEnd,
    /// How many records were answered.
    pub records: u32,
    /// How many of them were refused.
    pub refused: u32,
}

/// The state of a run between two pieces.
#[derive(Drop)]
pub struct Run<F> {
    /// The state of the record that is being read.
    pub reader: F,
    /// How many records have been answered.
    pub records: u32,
    /// How many of them were refused.
    pub refused: u32,
    /// How many bytes have been consumed.
    pub taken: usize,
}

/// Why a run stops within a piece.
#[derive(Drop)]
pub enum Stop<End> {
    /// The input ends badly in them.
    Bad(End),
    /// There was not enough memory.
    NoMemory,
}

/// Why a text could not be written.
#[derive(Clone, Copy, PartialEq, Eq)]
pub enum Failure {
    /// A write failed.
    WriteFault,
    /// There was not enough memory for it.
    NoMemory,
}

// Writes to `out` the last line of `run` by `job`, with the ending `end`. Fails when a write fails or memory runs out.
fn write_last<F: Format, J: Job<F>, K: Sink>(
    alloc: Global,
    run: &Run<F>,
    job: &J,
    end: &F::End,
    out: &mut K,
) -> Result<(), Failure>
    ensures ok { OnOk result (Grows (K.written out.old) (K.written out.new)
        ((J.answers (J.kind job.now)).last_line run.now.records run.now.refused end.now)) }
    ensures kept { OnOk result (K.faults out.new ≡ K.faults out.old) }
    ensures err { IfErr result (FailsAt ((J.answers (J.kind job.now)).last_line run.now.records run.now.refused end.now)
        (K.written out.old) (K.written out.new) (K.faults out.old) (K.faults out.new)) }
{
    let Ok(line) = job.last_line(alloc, run.records, run.refused, end) else {
        return Err(Failure::NoMemory);
    };
    match put_all(out, &line) {
        Ok(()) => Ok(()),
        Err(_) => Err(Failure::WriteFault),
    }
}

// Converts `failure`, by which the last line of a run could not be written, to how the run ends.
fn failed(failure: Failure) -> RunEnd
    ensures { result ≡ end_of failure }
{
    match failure {
        Failure::WriteFault => RunEnd::WriteFault,
        Failure::NoMemory => RunEnd::NoMemory,
    }
}

// Writes the last line of `run` by `job` to `out`, at the end of the input. Returns how the run ended.
fn finish<F: Format, J: Job<F>, K: Sink>(
    alloc: Global,
    run: &Run<F>,
    job: &J,
    out: &mut K,
) -> RunEnd
    requires { IsCounted (F.place run.now.reader) run.now.records run.now.refused run.now.taken }
    ensures { (start : Ports) (left : Option (List ℕ)) (faults : ℕ) →
        (stands : Stands F.At (J.answers (J.kind job.now)) start (ports left faults (K.written out.old) (K.faults out.old)) [] run.now.reader run.now.records run.now.refused) →
        IsAllConsumed start.left left stands.consumed →
        Outcome F.reads (J.answers (J.kind job.now)) start (ports left faults (K.written out.new) (K.faults out.new)) result
        × Counts F.reads (J.answers (J.kind job.now)) start.left run.now.records run.now.refused result }
{
    F::lawful();
    let end = run.reader.end();
    match write_last(alloc, run, job, &end, out) {
        Err(failure) => failed(failure),
        Ok(()) => {
            if !F::is_well(&end) {
                RunEnd::BadInput
            } else if run.refused == 0 {
                RunEnd::Done
            } else {
                RunEnd::SomeRefused
            }
        }
    }
}

// Consumes `piece`, the bytes of one read: updates `run`, and writes to `out` the blocks (answers of `job`) of the
// records that end in it. `text` is scratch space for the blocks. Returns as an error how the run has ended, if it has.
fn consume<F: Format, J: Job<F>, K: Sink>(
    alloc: Global,
    run: &mut Run<F>,
    job: &mut J,
    piece: &[u8],
    text: &mut Vec<u8>,
    out: &mut K,
) -> Result<(), RunEnd>
    requires { IsCounted (F.place run.old.reader) run.old.records run.old.refused run.old.taken }
    ensures counted { OnOk result (IsCounted (F.place run.new.reader) run.new.records run.new.refused run.new.taken) }
    ensures moved { OnOk result (run.new.taken ≡ run.old.taken + length piece.now) }
    ensures outcome { (start : Ports) (left : Option (List ℕ)) (faults : ℕ) →
        Stands F.At (J.answers (J.kind job.old)) start (ports left faults (K.written out.old) (K.faults out.old)) piece.now run.old.reader run.old.records run.old.refused →
        MatchResult result
        (λ _. Stands F.At (J.answers (J.kind job.old)) start (ports left faults (K.written out.new) (K.faults out.new)) [] run.new.reader run.new.records run.new.refused)
        (λ end. Outcome F.reads (J.answers (J.kind job.old)) start (ports left faults (K.written out.new) (K.faults out.new)) end
        × Counts F.reads (J.answers (J.kind job.old)) start.left run.new.records run.new.refused end) }
    ensures same { J.kind job.new ≡ J.kind job.old }
{
    F::lawful();
    text.clear();
    let went = take_piece(run, job, piece, text);
    match put_all(out, text) {
        Err(_) => Err(RunEnd::WriteFault),
        Ok(()) => match went {
            Ok(()) => Ok(()),
            Err(Stop::NoMemory) => Err(RunEnd::NoMemory),
            Err(Stop::Bad(end)) => match write_last(alloc, run, job, &end, out) {
                Ok(()) => Err(RunEnd::BadInput),
                Err(failure) => Err(failed(failure)),
            },
        },
    }
}

// Reads once from `src` into the scratch `buffer`, not empty, and passes the bytes to `consume` with `run`, `job`, the
// scratch `text` and `out`. If the run has ended, returns how as an error: at the end of the input or at a fault.
fn read_once<F: Format, J: Job<F>, S: Source, K: Sink>(
    alloc: Global,
    run: &mut Run<F>,
    job: &mut J,
    buffer: &mut [u8],
    text: &mut Vec<u8>,
    src: &mut S,
    out: &mut K,
) -> Result<(), RunEnd>
    requires counted { IsCounted (F.place run.old.reader) run.old.records run.old.refused run.old.taken }
    requires some_room { 0 < length buffer.old }
    requires room { run.old.taken + length buffer.old ≤ input_limit + 1 }
    ensures counted { OnOk result (IsCounted (F.place run.new.reader) run.new.records run.new.refused run.new.taken) }
    ensures goes_on { OnOk result (run.old.taken < run.new.taken) }
    ensures outcome { (start : Ports) →
        Stands F.At (J.answers (J.kind job.old)) start (ports (S.left src.old) (S.faults src.old) (K.written out.old) (K.faults out.old)) [] run.old.reader run.old.records run.old.refused →
        MatchResult result
        (λ _. Stands F.At (J.answers (J.kind job.old)) start (ports (S.left src.new) (S.faults src.new) (K.written out.new) (K.faults out.new)) [] run.new.reader run.new.records run.new.refused)
        (λ end. Outcome F.reads (J.answers (J.kind job.old)) start (ports (S.left src.new) (S.faults src.new) (K.written out.new) (K.faults out.new)) end
        × Counts F.reads (J.answers (J.kind job.old)) start.left run.new.records run.new.refused end
        × TakesAtMost (input_limit + 1) start.left (S.left src.new)) }
    ensures same { J.kind job.new ≡ J.kind job.old }
{
    F::lawful();
    match src.read(buffer) {
        Err(_) => Err(RunEnd::ReadFault),
        Ok(0) => Err(finish(alloc, run, job, out)),
        Ok(given) => consume(alloc, run, job, &buffer[..given], text, out),
    }
}

/// Runs `job` over the records of `src`, to the end of its input or to what stops it, and writes its text to `out`.
/// `reader` must be at the first byte. Returns how the run ended, and how many records it answered and refused.
///
/// It reads into a buffer of 4096 bytes, and asks for no byte beyond the one after the limit. The
/// blocks of the records that end within one read are written together, before the next read. Of the
/// input the run keeps the buffer and what the reader does; it keeps one buffer of blocks.
pub fn run_counted<F: Format, J: Job<F>, S: Source, K: Sink>(
    alloc: Global,
    reader: F,
    job: &mut J,
    src: &mut S,
    out: &mut K,
) -> Ended
    requires { F.At reader [] [] }
    ensures outcome { Outcome F.reads (J.answers (J.kind job.old))
        (ports (S.left src.old) (S.faults src.old) (K.written out.old) (K.faults out.old))
        (ports (S.left src.new) (S.faults src.new) (K.written out.new) (K.faults out.new)) result.end }
    ensures counts { Counts F.reads (J.answers (J.kind job.old)) (S.left src.old) result.records result.refused result.end }
    ensures limit { TakesAtMost (input_limit + 1) (S.left src.old) (S.left src.new) }
{
    F::lawful();
    let mut run = Run {
        reader,
        records: 0,
        refused: 0,
        taken: 0,
    };
    let mut buffer = [0u8; BUFFER];
    let mut text = Vec::new(alloc);
    'reads: loop {
        let room = BUFFER.min(INPUT_LIMIT + 1 - run.taken);
        match read_once(
            alloc,
            &mut run,
            job,
            &mut buffer[..room],
            &mut text,
            src,
            out,
        ) {
            Ok(()) => {}
            Err(end) => {
                return Ended {
                    end,
                    records: run.records,
                    refused: run.refused,
                };
            }
        }
    }
}

/// Runs `job` over the records of `src`, as `run_counted` does. Returns how the run ended.
pub fn run_records<F: Format, J: Job<F>, S: Source, K: Sink>(
    alloc: Global,
    reader: F,
    job: &mut J,
    src: &mut S,
    out: &mut K,
) -> RunEnd
    requires { F.At reader [] [] }
    ensures outcome { Outcome F.reads (J.answers (J.kind job.old))
        (ports (S.left src.old) (S.faults src.old) (K.written out.old) (K.faults out.old))
        (ports (S.left src.new) (S.faults src.new) (K.written out.new) (K.faults out.new)) result }
    ensures limit { TakesAtMost (input_limit + 1) (S.left src.old) (S.left src.new) }
{
    run_counted(alloc, reader, job, src, out).end
}
