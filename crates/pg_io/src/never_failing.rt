//! `SureSource` and `SureSink`: a source and a sink that never fail.
ghost use Rattle.std.specs.Prelude.{ℕ, ◌+◌, ◌-◌, ◌^◌, ◌<◌, ◌≤◌, ◌≡◌, ◌↔◌, min, [], length, take, drop, Some, None, Ok, IfOk, OnErr, IsOk, vec_len};
ghost use Rattle.pg_io.specs.Io.{WhereTold, Gives, Grows, HasRisen};

use super::memory::copy_front;
use super::traits::{ReadFailed, Sink, Source, WriteFailed};

/// Gives the bytes of a vector, `most` at a time, and never fails.
#[derive(Drop)]
pub struct SureSource {
    /// All its bytes, those already given too.
    pub bytes: Vec<u8>,
    /// How many it has given.
    pub at: usize,
    /// The most bytes that one read gives, at least 1.
    pub most: usize,
    pub ghost in_bytes: { at ≤ vec_len bytes },
    pub ghost gives_some: { 0 < most },
}

impl SureSource {
    /// Returns a source with all of `bytes` left. `most` must be at least 1. It takes no memory.
    pub fn new(bytes: Vec<u8>, most: usize) -> SureSource
        requires { 0 < most }
        ensures all_left { (result.bytes ≡ bytes) × (result.at ≡ 0) }
        ensures cut { result.most ≡ most }
    {
        SureSource { bytes, at: 0, most }
    }
}

impl Source for SureSource {
    ghost left = { λ source. Some (drop source.at source.bytes.items) };

    ghost faults = { λ _. 0 };

    /// Gives as many bytes as the least of `most`, the length of `buf` and the number of bytes left. It never fails.
    fn read(&mut self, buf: &mut [u8]) -> Result<usize, ReadFailed>
        requires { 0 < length buf.old }

        // The clauses of every source.
        ensures within { IfOk result (λ k. k ≤ length buf.old) }
        ensures given { IfOk result
            (λ k. Gives (Some (drop self.old.at self.old.bytes.items)) (Some (drop self.new.at self.new.bytes.items)) k buf.old buf.new) }
        ensures end { IfOk result
            (λ k. WhereTold (Some (drop self.old.at self.old.bytes.items)) (λ bytes. (k ≡ 0) ↔ (bytes ≡ []))) }

        // It never fails, and how much it gives.
        ensures count { result
            ≡ Ok (min (min self.old.most (length buf.old)) (vec_len self.old.bytes - self.old.at)) }
        ensures at { IfOk result (λ k. self.new.at ≡ self.old.at + k) }
        ensures same { (self.new.bytes ≡ self.old.bytes) × (self.new.most ≡ self.old.most) }
    {
        let given = copy_front(&self.bytes[self.at..], self.most, buf);
        self.at += given;
        Ok(given)
    }
}

/// Takes every piece whole, keeps only how many bytes there were, and never fails.
#[derive(Drop)]
pub struct SureSink {
    /// How many bytes were written. It stays at 2^64 - 1.
    pub total: u64,
}

impl SureSink {
    /// Returns a sink to which nothing has been written. It takes no memory.
    pub fn new() -> SureSink
        ensures { result.total ≡ 0 }
    {
        SureSink { total: 0 }
    }
}

impl Sink for SureSink {
    ghost written = { λ _. None };

    ghost faults = { λ _. 0 };

    /// Takes the whole piece. It never fails.
    fn write(&mut self, piece: &[u8]) -> Result<usize, WriteFailed>
        requires { 0 < length piece.now }
        ensures whole { result ≡ Ok (length piece.now) }
        ensures total { self.new.total ≡ min (self.old.total + length piece.now) (2 ^ 64 - 1) }
    {
        self.total = self.total.saturating_add(piece.len() as u64);
        Ok(piece.len())
    }
}
