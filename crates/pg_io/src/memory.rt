//! `MemSource` and `MemSink`: a source and a sink in memory, which fail exactly at chosen calls.
ghost use Rattle.std.specs.Prelude.{ℕ, ◌+◌, ◌-◌, ◌<◌, ◌≤◌, ◌≡◌, ◌↔◌, ◌⊎◌, min, List, [], ◌++◌, length, take, drop, Some, Contains, IfOk, OnOk, OnErr, IsErr, is_err, IsTrue, if◌then◌else◌, vec_len, vec_capacity};
ghost use Rattle.pg_io.specs.Io.{WhereTold, Gives, Grows, HasRisen, raised};

use super::traits::{ReadFailed, Sink, Source, WriteFailed};
use std::alloc::{AllocError, Global};

/// Gives the bytes of a vector, `most` at a time, and fails at chosen calls.
#[derive(Drop)]
pub struct MemSource {
    /// All its bytes, those already given too.
    pub bytes: Vec<u8>,
    /// How many it has given.
    pub at: usize,
    /// The most bytes that one read gives, at least 1.
    pub most: usize,
    /// The numbers of the calls that fail, counted from 1.
    pub failing: Vec<u64>,
    /// How many calls failed. It stays at 2^64 - 1.
    pub faults: u64,
    /// How many calls there were. It stays at 2^64 - 1.
    pub calls: u64,
    pub ghost in_bytes: { at ≤ vec_len bytes },
    pub ghost gives_some: { 0 < most },
}

impl MemSource {
    /// Returns a source with all of `bytes` left and both counts 0. `most` must be at least 1. It takes no memory.
    pub fn new(bytes: Vec<u8>, most: usize, failing: Vec<u64>) -> MemSource
        requires { 0 < most }
        ensures all_left { (result.bytes ≡ bytes) × (result.at ≡ 0) }
        ensures cut { result.most ≡ most }
        ensures told_to_fail { result.failing ≡ failing }
        ensures counts { (result.faults ≡ 0) × (result.calls ≡ 0) }
    {
        MemSource {
            bytes,
            at: 0,
            most,
            failing,
            faults: 0,
            calls: 0,
        }
    }
}

impl Source for MemSource {
    ghost left = { λ source. Some (drop source.at source.bytes.items) };

    ghost faults = { λ source. source.faults };

    /// Fails exactly where the number of this call stands in `failing`; `buf` is then unchanged. Otherwise it gives as
    /// many bytes as the least of `most`, the length of `buf` and the number of bytes left.
    fn read(&mut self, buf: &mut [u8]) -> Result<usize, ReadFailed>
        requires { 0 < length buf.old }

        // The clauses of every source.
        ensures within { IfOk result (λ k. k ≤ length buf.old) }
        ensures given { IfOk result
            (λ k. Gives (Some (drop self.old.at self.old.bytes.items)) (Some (drop self.new.at self.new.bytes.items)) k buf.old buf.new) }
        ensures end { IfOk result
            (λ k. WhereTold (Some (drop self.old.at self.old.bytes.items)) (λ bytes. (k ≡ 0) ↔ (bytes ≡ []))) }
        ensures failed { OnErr result
            (HasRisen self.old.faults self.new.faults
            × (Some (drop self.new.at self.new.bytes.items) ≡ Some (drop self.old.at self.old.bytes.items))) }
        ensures never_falls { self.old.faults ≤ self.new.faults }

        // When it fails, and how much it gives.
        ensures fails { IsErr result ↔ Contains self.old.failing.items (raised self.old.calls) }
        ensures count { IfOk result
            (λ k. k ≡ min (min self.old.most (length buf.old)) (vec_len self.old.bytes - self.old.at)) }
        ensures at { IfOk result (λ k. self.new.at ≡ self.old.at + k) }
        ensures unread { OnErr result ((self.new.at ≡ self.old.at) × (buf.new ≡ buf.old)) }

        // It counts the call and any fault, and the rest stays.
        ensures calls { self.new.calls ≡ raised self.old.calls }
        ensures faults { self.new.faults
            ≡ (if is_err result then raised self.old.faults else self.old.faults) }
        ensures same { (self.new.bytes ≡ self.old.bytes) × (self.new.most ≡ self.old.most)
            × (self.new.failing ≡ self.old.failing) }
    {
        self.calls = self.calls.saturating_add(1);
        if self.failing.contains(&self.calls) {
            self.faults = self.faults.saturating_add(1);
            return Err(ReadFailed);
        }
        let given = copy_front(&self.bytes[self.at..], self.most, buf);
        self.at += given;
        Ok(given)
    }
}

/// Copies the first bytes of `from` to the front of `to`: as many as both have, and at most `most`. Returns how many.
pub(crate) fn copy_front(from: &[u8], most: usize, to: &mut [u8]) -> usize
    ensures count { result ≡ min (min most (length to.old)) (length from.now) }
    ensures copied { to.new ≡ take result from.now ++ drop result to.old }
{
    let count = most.min(to.len()).min(from.len());
    to[..count].copy_from_slice(&from[..count]);
    count
}

/// Holds the bytes written to it, up to `room`, takes `most` at a time, and fails at chosen calls.
#[derive(Drop)]
pub struct MemSink {
    /// The bytes written so far.
    pub written: Vec<u8>,
    /// The most bytes that it holds. The memory for them is there from the start.
    pub room: usize,
    /// The most bytes that one write takes, at least 1.
    pub most: usize,
    /// The numbers of the calls that fail, counted from 1.
    pub failing: Vec<u64>,
    /// How many calls failed. It stays at 2^64 - 1.
    pub faults: u64,
    /// How many calls there were. It stays at 2^64 - 1.
    pub calls: u64,
    pub ghost in_room: { vec_len written ≤ room },
    pub ghost reserved: { room ≤ vec_capacity written },
    pub ghost takes_some: { 0 < most },
}

impl MemSink {
    /// Returns a sink with nothing written and both counts 0, and memory for `room` bytes. `most` must be at least 1.
    /// `failing` is copied. It fails only when out of memory.
    pub fn with_room(
        alloc: Global,
        room: usize,
        most: usize,
        failing: &[u64],
    ) -> Result<MemSink, AllocError>
        requires { 0 < most }
        ensures empty { IfOk result (λ sink. sink.written.items ≡ []) }
        ensures room { IfOk result (λ sink. sink.room ≡ room) }
        ensures cut { IfOk result (λ sink. sink.most ≡ most) }
        ensures told_to_fail { IfOk result (λ sink. sink.failing.items ≡ failing.now) }
        ensures counts { IfOk result (λ sink. (sink.faults ≡ 0) × (sink.calls ≡ 0)) }
    {
        let written = Vec::with_capacity(alloc, room)?;
        let failing = failing.to_vec(alloc)?;
        Ok(MemSink {
            written,
            room,
            most,
            failing,
            faults: 0,
            calls: 0,
        })
    }

    // Says whether the current call, whose number is `calls`, is to fail: it is in `failing`, or no room is left.
    fn must_fail(&self) -> bool
        ensures { IsTrue result
            ↔ (Contains self.now.failing.items self.now.calls ⊎ (vec_len self.now.written ≡ self.now.room)) }
    {
        self.failing.contains(&self.calls) || self.written.len() == self.room
    }
}

impl Sink for MemSink {
    ghost written = { λ sink. Some sink.written.items };

    ghost faults = { λ sink. sink.faults };

    /// Fails exactly where the number of this call stands in `failing`, or no room is left. Otherwise it takes as many
    /// bytes as the least of `most`, the room left and the length of `piece`. It takes no memory.
    fn write(&mut self, piece: &[u8]) -> Result<usize, WriteFailed>
        requires { 0 < length piece.now }

        // The clauses of every sink.
        ensures within { IfOk result (λ k. (0 < k) × (k ≤ length piece.now)) }
        ensures appended { IfOk result
            (λ k. Grows (Some self.old.written.items) (Some self.new.written.items) (take k piece.now)) }
        ensures failed { OnErr result
            (HasRisen self.old.faults self.new.faults
            × (Some self.new.written.items ≡ Some self.old.written.items)) }
        ensures never_falls { self.old.faults ≤ self.new.faults }

        // When it fails, and how much it takes.
        ensures fails { IsErr result
            ↔ (Contains self.old.failing.items (raised self.old.calls) ⊎ (vec_len self.old.written ≡ self.old.room)) }
        ensures count { IfOk result
            (λ k. k ≡ min (min self.old.most (self.old.room - vec_len self.old.written)) (length piece.now)) }
        ensures written { IfOk result
            (λ k. self.new.written.items ≡ self.old.written.items ++ take k piece.now) }
        ensures unwritten { OnErr result (self.new.written ≡ self.old.written) }

        // It counts the call and any fault, and the rest stays.
        ensures calls { self.new.calls ≡ raised self.old.calls }
        ensures faults { self.new.faults
            ≡ (if is_err result then raised self.old.faults else self.old.faults) }
        ensures same { (self.new.room ≡ self.old.room) × (self.new.most ≡ self.old.most)
            × (self.new.failing ≡ self.old.failing) }
    {
        self.calls = self.calls.saturating_add(1);
        if self.must_fail() {
            self.faults = self.faults.saturating_add(1);
            return Err(WriteFailed);
        }
        let room = self.room - self.written.len();
        let taken = self.most.min(room).min(piece.len());
        self.written.extend_from_slice(&piece[..taken]).unwrap();
        Ok(taken)
    }
}
