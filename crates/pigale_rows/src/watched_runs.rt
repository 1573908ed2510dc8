//! Test runs whose reads and writes are watched: how many bytes each read gave, and how many had been written by then.
ghost use Rattle.std.specs.Prelude.{None};

use crate::run_settings::Given;
use crate::runs::{put, put_number, source_of, status_of};
use pg_io::{MemSource, ReadFailed, Sink, Source, WriteFailed};
use std::alloc::Global;
use std::cell::Cell;

/// What was observed at one read: the bytes that it gave, and the bytes written before it.
#[derive(Clone, Copy)]
struct Seen {
    given: usize,
    written: u64,
}

/// A source that records at each read how much was given and written.
#[derive(Drop)]
struct Watching<'a> {
    source: MemSource,
    written: &'a Cell<u64>,
    seen: Vec<Seen>,
}

impl Source for Watching<'_> {
    ghost left = { λ _. None };

    ghost faults = { λ watching. watching.source.faults };

    // Reads as its source does, and records the bytes given and written so far.
    fn read(&mut self, buf: &mut [u8]) -> Result<usize, ReadFailed> {
        let given = self.source.read(buf)?;
        let written = self.written.get();
        let _ = self.seen.push(Seen { given, written });
        Ok(given)
    }
}

/// A sink that takes every piece whole and counts the bytes.
#[derive(Drop)]
struct Counting<'a> {
    written: &'a Cell<u64>,
}

impl Sink for Counting<'_> {
    ghost written = { λ _. None };

    ghost faults = { λ _. 0 };

    // Takes the whole piece, and adds its length to the count.
    fn write(&mut self, piece: &[u8]) -> Result<usize, WriteFailed> {
        let written = self.written.get().saturating_add(piece.len() as u64);
        self.written.set(written);
        Ok(piece.len())
    }
}

/// Appends to `told` a line with `name`, `number` and the number of bytes written.
fn tell_one(alloc: Global, name: &[u8], number: u64, written: u64, told: &mut Vec<u8>) {
    put(name, told);
    put_number(alloc, number, told);
    put(b" with ", told);
    put_number(alloc, written, told);
    put(b" written\n", told);
}

/// Appends to `told` a line for each read that was observed.
fn tell_seen(alloc: Global, seen: &[Seen], told: &mut Vec<u8>) {
    for each in seen {
        tell_one(alloc, b"read ", each.given as u64, each.written, told);
    }
}

/// Runs `words`, and appends to `told` what each read gave, how many bytes were written, and the status.
pub fn watch(alloc: Global, words: &[String], given: &Given, told: &mut Vec<u8>) {
    let written = Cell::new(0);
    let mut source = Watching {
        source: source_of(alloc, given),
        written: &written,
        seen: Vec::new(alloc),
    };
    let mut sink = Counting { written: &written };
    let status = status_of(alloc, words, &mut source, &mut sink);
    tell_seen(alloc, &source.seen, told);
    tell_one(alloc, b"status ", u64::from(status), written.get(), told);
}
