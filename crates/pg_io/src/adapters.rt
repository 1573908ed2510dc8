//! Adapters that make readers and writers of `std` into sources and sinks, and count their faults. What a file or a
//! pipe holds no proof can know, so these tell nothing of their bytes.
ghost use Rattle.std.specs.Prelude.{ℕ, ◌<◌, ◌≤◌, ◌≡◌, ◌↔◌, length, take, None, Ok, IfOk, OnErr, IsOk, IsErr, IsSome, IsSomeAnd, MatchResult, is_err, if◌then◌else◌};
ghost use Rattle.std.specs.Io.KnownBytes.{Appends, Consumes, IsAtEnd, Keeps};
ghost use Rattle.pg_io.specs.Io.{HasRisen, raised, TookSome};

use super::traits::{ReadFailed, Sink, Source, WriteFailed};
use std::io::{self, Read, Write};

/// A reader of `std` as a source. It tells nothing of its bytes.
#[derive(Drop)]
pub struct ReadAdapter<R> {
    /// The reader. After a fault nothing is known of it.
    pub inner: R,
    /// How many reads failed. It stays at 2^64 - 1.
    pub faults: u64,
}

impl<R> ReadAdapter<R> {
    /// Returns the reader as a source, with the count 0. It takes no memory.
    pub fn new(inner: R) -> ReadAdapter<R>
        ensures held { result.inner ≡ inner }
        ensures count { result.faults ≡ 0 }
    {
        ReadAdapter { inner, faults: 0 }
    }
}

// Returns the count of a reader's `answer`. If that is an error, fails and adds one to `faults`, up to 2^64 - 1.
fn judge_read(answer: io::Result<usize>, faults: &mut u64) -> Result<usize, ReadFailed>
    ensures passed_on { MatchResult answer (λ k. result ≡ Ok k) (λ _. IsErr result) }
    ensures counted { faults.new ≡ (if is_err answer then raised faults.old else faults.old) }
    ensures never_falls { faults.old ≤ faults.new }
{
    match answer {
        Ok(count) => Ok(count),
        Err(_) => {
            *faults = faults.saturating_add(1);
            Err(ReadFailed)
        }
    }
}

impl<R: Read> Source for ReadAdapter<R> {
    ghost left = { λ _. None };

    ghost faults = { λ source. source.faults };

    /// Reads once from the reader: `Ok` is the reader's own answer. It fails exactly where the reader
    /// does, and counts the fault. Nothing is then known of the reader or of `buf`.
    fn read(&mut self, buf: &mut [u8]) -> Result<usize, ReadFailed>
        requires { 0 < length buf.old }
        ensures within { IfOk result (λ k. k ≤ length buf.old) }
        ensures read_once { IfOk result
            (λ k. Consumes (R.remaining self.old.inner) (R.remaining self.new.inner) (take k buf.new)) }
        ensures end { IfOk result (λ k. k ≡ 0 → IsAtEnd (R.remaining self.old.inner)) }
        ensures failed { OnErr result (HasRisen self.old.faults self.new.faults) }
        ensures never_falls { self.old.faults ≤ self.new.faults }
        ensures faults { self.new.faults
            ≡ (if is_err result then raised self.old.faults else self.old.faults) }
    {
        let answer = self.inner.read(buf);
        judge_read(answer, &mut self.faults)
    }
}

/// A writer of `std` as a sink. It tells nothing of its bytes.
#[derive(Drop)]
pub struct WriteAdapter<W> {
    /// The writer. After a fault nothing is known of it.
    pub inner: W,
    /// How many writes failed. It stays at 2^64 - 1.
    pub faults: u64,
}

impl<W> WriteAdapter<W> {
    /// Returns the writer as a sink, with the count 0. It takes no memory.
    pub fn new(inner: W) -> WriteAdapter<W>
        ensures held { result.inner ≡ inner }
        ensures count { result.faults ≡ 0 }
    {
        WriteAdapter { inner, faults: 0 }
    }
}

// Flushes `writer` if it took some bytes, as `written` says, and returns the answer. Else returns None.
fn flush_after<W: Write>(writer: &mut W, written: &io::Result<usize>) -> Option<io::Result<()>>
    ensures just_then { IsSome result ↔ TookSome written.now }
    ensures kept { Keeps (W.contents writer.old) (W.contents writer.new) }
{
    match written {
        Ok(count) if *count > 0 => Some(writer.flush()),
        _ => None,
    }
}

// Judges a writer's answers `written` to a write and `flushed` to the flush after, None if no byte was taken. Returns
// the number of bytes written, or adds one to `faults`: the write failed or took no byte, or the flush failed.
fn judge_write(
    written: io::Result<usize>,
    flushed: Option<io::Result<()>>,
    faults: &mut u64,
) -> Result<usize, WriteFailed>
    requires { IsSome flushed ↔ TookSome written }
    ensures passed_on { IfOk result (λ k. written ≡ Ok k) }
    ensures served { IsOk result ↔ IsSomeAnd flushed IsOk }
    ensures counted { faults.new ≡ (if is_err result then raised faults.old else faults.old) }
    ensures never_falls { faults.old ≤ faults.new }
{
    match (written, flushed) {
        (Ok(count), Some(Ok(()))) => Ok(count),
        _ => {
            *faults = faults.saturating_add(1);
            Err(WriteFailed)
        }
    }
}

impl<W: Write> Sink for WriteAdapter<W> {
    ghost written = { λ _. None };

    ghost faults = { λ sink. sink.faults };

    /// Writes once to the writer and flushes it: `Ok` is the writer's own answer. It fails exactly where the writer
    /// fails or takes no byte, or the flush fails, and counts the fault. Nothing is then known of the writer.
    fn write(&mut self, piece: &[u8]) -> Result<usize, WriteFailed>
        requires { 0 < length piece.now }
        ensures within { IfOk result (λ k. (0 < k) × (k ≤ length piece.now)) }
        ensures written_once { IfOk result
            (λ k. Appends (W.contents self.old.inner) (W.contents self.new.inner) (take k piece.now)) }
        ensures failed { OnErr result (HasRisen self.old.faults self.new.faults) }
        ensures never_falls { self.old.faults ≤ self.new.faults }
        ensures faults { self.new.faults
            ≡ (if is_err result then raised self.old.faults else self.old.faults) }
    {
        let written = self.inner.write(piece);
        let flushed = flush_after(&mut self.inner, &written);
        judge_write(written, flushed, &mut self.faults)
    }
}
