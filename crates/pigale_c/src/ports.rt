//! `LentSource` and `TextSink`: a source over lent bytes, and a sink that keeps its text in memory.
ghost use Rattle.std.specs.Prelude.{ℕ, ◌<◌, ◌≤◌, ◌≡◌, ◌⊎◌, ◌↔◌, ◌++◌, List, [], length, take, drop, min, Some, IfOk, OnOk, OnErr, is_err, IsErr, if◌then◌else◌};
ghost use Rattle.pg_io.specs.Io.{WhereTold, Gives, Grows, HasRisen, raised};

use pg_io::{ReadFailed, Sink, Source, WriteFailed};
use std::alloc::Global;

/// Reads lent bytes, and never fails.
#[derive(Drop)]
pub struct LentSource<'a> {
    /// The bytes not yet read.
    pub left: &'a [u8],
}

impl Source for LentSource<'_> {
    ghost left = { λ source. Some source.left.now };

    ghost faults = { λ _. 0 };

    /// Reads as many bytes as `buf` has room for and are left. It never fails.
    fn read(&mut self, buf: &mut [u8]) -> Result<usize, ReadFailed> {
        let count = buf.len().min(self.left.len());
        buf[..count].copy_from_slice(&self.left[..count]);
        self.left = &self.left[count..];
        Ok(count)
    }
}

/// Keeps all bytes written to it, and fails where there is no memory for them.
#[derive(Drop)]
pub struct TextSink {
    /// The bytes written so far.
    pub text: Vec<u8>,
    /// How many writes failed. It stays at 2^64 - 1.
    pub faults: u64,
}

impl TextSink {
    /// Returns a sink with nothing written. It takes no memory.
    pub fn new(alloc: Global) -> TextSink
        ensures empty { result.text.items ≡ [] }
        ensures count { result.faults ≡ 0 }
    {
        TextSink {
            text: Vec::new(alloc),
            faults: 0,
        }
    }
}

impl Sink for TextSink {
    ghost written = { λ sink. Some sink.text.items };

    ghost faults = { λ sink. sink.faults };

    /// Appends the whole piece, or fails when out of memory and counts the fault.
    fn write(&mut self, piece: &[u8]) -> Result<usize, WriteFailed> {
        match self.text.extend_from_slice(piece) {
            Ok(()) => Ok(piece.len()),
            Err(_) => {
                self.faults = self.faults.saturating_add(1);
                Err(WriteFailed)
            }
        }
    }
}
