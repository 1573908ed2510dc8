//! Test runs of the top call over a source and a sink in memory, and their text and status.
use crate::run_settings::{Cut, Given};
use map_lists::Rotations;
use pg_io::{MemSink, MemSource, Sink, Source};
use pigale_shell::{Job, answer_record, pigale};
use planar_code::{Step, next_record};
use std::alloc::Global;

/// The result of a run: the bytes written, the number of its status, and how often it read.
#[derive(Drop)]
pub struct Ran {
    pub text: Vec<u8>,
    pub status: u8,
    pub reads: u64,
}

/// The most bytes that a sink of a test run holds.
const ROOM: usize = 1 << 20;

/// Appends `bytes` to `told`.
pub fn put(bytes: &[u8], told: &mut Vec<u8>) {
    let _ = told.extend_from_slice(bytes);
}

/// Appends `number` in decimal to `told`.
pub fn put_number(alloc: Global, number: u64, told: &mut Vec<u8>) {
    match format!(in alloc; "{number}") {
        Ok(text) => put(text.as_bytes(), told),
        Err(_) => {}
    }
}

/// Returns a copy of `bytes`.
fn copy_of(alloc: Global, bytes: &[u8]) -> Vec<u8> {
    let mut copy = Vec::new(alloc);
    put(bytes, &mut copy);
    copy
}

/// Returns a copy of `numbers`.
fn numbers_of(alloc: Global, numbers: &[u64]) -> Vec<u64> {
    let mut copy = Vec::new(alloc);
    let _ = copy.extend_from_slice(numbers);
    copy
}

/// Runs `words` over `source` into `sink`, and returns the number of the status.
pub fn status_of<S: Source, K: Sink>(
    alloc: Global,
    words: &[String],
    source: &mut S,
    sink: &mut K,
) -> u8 {
    pigale(alloc, words, source, sink).number()
}

/// Runs `words` over `source` into `sink`, and returns the result.
fn run_into(alloc: Global, words: &[String], source: &mut MemSource, sink: &mut MemSink) -> Ran {
    let status = status_of(alloc, words, source, sink);
    Ran {
        text: copy_of(alloc, &sink.written),
        status,
        reads: source.calls,
    }
}

/// Runs `words` over `source` into a sink that takes and fails as `writes` says. Without memory for the sink nothing
/// is written.
fn run_through(alloc: Global, words: &[String], source: &mut MemSource, writes: &Cut) -> Ran {
    match MemSink::with_room(alloc, ROOM, writes.most, &writes.failing) {
        Ok(mut sink) => run_into(alloc, words, source, &mut sink),
        Err(_) => Ran {
            text: Vec::new(alloc),
            status: u8::MAX,
            reads: 0,
        },
    }
}

/// Returns a source of the input `given`, with its limits and failing reads.
pub fn source_of(alloc: Global, given: &Given) -> MemSource {
    let failing = numbers_of(alloc, &given.reads.failing);
    MemSource::new(copy_of(alloc, &given.input), given.reads.most, failing)
}

/// Runs `words` with the input and the limits `given`.
pub fn run(alloc: Global, words: &[String], given: &Given) -> Ran {
    run_through(alloc, words, &mut source_of(alloc, given), &given.writes)
}

/// Runs `words` over an `input` that one read may give whole.
pub fn run_over(alloc: Global, words: &[String], input: &[u8]) -> Ran {
    let mut source = MemSource::new(copy_of(alloc, input), usize::MAX, Vec::new(alloc));
    run_through(alloc, words, &mut source, &Cut::none(alloc))
}

/// Appends `text` to `told`. If its last line is open, a `\` follows it.
pub fn tell_text(text: &[u8], told: &mut Vec<u8>) {
    put(text, told);
    match text.last() {
        None | Some(b'\n') => {}
        Some(_) => put(b"\\\n", told),
    }
}

/// Appends to `told` the status of a run, and that it read nothing if so.
pub fn tell_status(alloc: Global, ran: &Ran, told: &mut Vec<u8>) {
    put(b"status ", told);
    put_number(alloc, u64::from(ran.status), told);
    put(
        if ran.reads == 0 {
            b", nothing read\n"
        } else {
            b"\n"
        },
        told,
    );
}

/// Appends to `told` what a run wrote, and its status.
pub fn tell_run(alloc: Global, ran: &Ran, told: &mut Vec<u8>) {
    tell_text(&ran.text, told);
    tell_status(alloc, ran, told);
}

/// Appends to `told` the answer of `count` to `lists`, after a line that stood there before.
fn answer_lists(alloc: Global, lists: &Rotations, told: &mut Vec<u8>) {
    put(b"before\n", told);
    if 0 < lists.len() {
        match answer_record(alloc, Job::Count, 1, lists, told) {
            Ok(true) => put(b"served\n", told),
            _ => {}
        }
    }
}

/// Appends to `told` the answer of `count` to the lists of the record in the input `given`.
pub fn answer(alloc: Global, given: &Given, told: &mut Vec<u8>) {
    match next_record(alloc, &given.input, 0) {
        Ok(Step::Lists(lists, _)) => answer_lists(alloc, &lists, told),
        _ => put(b"no record\n", told),
    }
}
