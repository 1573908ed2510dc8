//! Records of planar_code read from bytes that are all in memory: the record at an offset, and the offset of the first.
ghost use Rattle.std.specs.Prelude.{◌≡◌, ◌≤◌, [], length, IfOk, MatchResult};
ghost use Rattle.planar_code.specs.Reading.{header_of};
ghost use Rattle.planar_code.specs.Step.{StandsAt, FailsAt};
ghost use Rattle.planar_code.specs.Whole.{IsCut, Reaches};

use crate::HEADER;
use crate::record_scanner::{Scanned, Scanner};
use map_lists::Rotations;
use std::alloc::{AllocError, Global};

/// What stands at an offset of the bytes: a record, or their end.
#[derive(Drop)]
pub enum Step {
    /// A record with these lists, numbered from 0, and the offset after it.
    Lists(Rotations, usize),
    /// The end of the bytes.
    End,
}

/// Why no record stands at an offset of the bytes, which is named.
#[derive(Clone, Copy, PartialEq, Eq)]
pub enum CodeFault {
    /// The bytes end before a record that begins there has ended.
    EndInRecord(usize),
    /// A byte 0 stands there, and the two bytes after it give no number from 1 to 4095.
    BadCount(usize),
    /// There was not enough memory.
    NoMemory,
}

/// The number of bytes for which memory is reserved at once.
const AT_ONCE: usize = 4096;

/// What a scanner meets from an offset on.
#[derive(Clone, Copy)]
pub(crate) enum Reach {
    /// A record, which ends at this offset.
    Ended(usize),
    /// A bad count.
    Bad,
    /// The end of the bytes, within a record or before the first byte of one.
    Open,
}

/// Scans the record at offset `at` of `bytes` with `scanner`, which has no bytes of another. Returns what it meets; it has
/// the lists of a record that ends. It fails only when out of memory.
fn record_reach(scanner: &mut Scanner, bytes: &[u8], at: usize) -> Result<Reach, AllocError>
    requires within { at ≤ length bytes.now }
    requires none { scanner.old.bytes ≡ [] }
    ensures { IfOk result (Reaches bytes.now at scanner.new) }
{
    let rest = &bytes[at..];
    let mut passed = 0;
    while passed < rest.len() {
        let size = (rest.len() - passed).min(AT_ONCE);
        let piece = &rest[passed..passed + size];
        scanner.reserve(piece.len())?;
        match scanner.take(piece) {
            Scanned::More(k) => passed += k,
            Scanned::Ended(k) => return Ok(Reach::Ended(at + passed + k)),
            Scanned::Bad(_) => return Ok(Reach::Bad),
        }
    }
    Ok(Reach::Open)
}

/// Returns the lists of the record at offset `at` of `bytes` and the offset after it, or `End` at the end of `bytes`.
/// `Err` says why no record is there. `at` is at most the length.
pub fn next_record(alloc: Global, bytes: &[u8], at: usize) -> Result<Step, CodeFault>
    requires { at ≤ length bytes.now }
    ensures { MatchResult result (StandsAt bytes.now at) (FailsAt bytes.now at) }
{
    if at == bytes.len() {
        return Ok(Step::End);
    }
    let mut scanner = Scanner::new(alloc);
    match record_reach(&mut scanner, bytes, at) {
        Ok(Reach::Ended(end)) => Ok(Step::Lists(scanner.hand_over(), end)),
        Ok(Reach::Bad) => Err(CodeFault::BadCount(at)),
        Ok(Reach::Open) => Err(CodeFault::EndInRecord(at)),
        Err(AllocError) => Err(CodeFault::NoMemory),
    }
}

/// Where bytes may be cut, and how many records stand before that.
#[derive(Clone, Copy)]
pub struct Cut {
    /// The offset.
    pub end: usize,
    /// The number of records.
    pub records: usize,
}

/// Returns where `bytes` may be cut: up to that offset they are a header or none and whole records, and up to no greater
/// one. It fails only when out of memory.
pub fn last_cut(alloc: Global, bytes: &[u8]) -> Result<Cut, AllocError>
    ensures { IfOk result (λ cut. IsCut bytes.now cut.end cut.records) }
{
    let mut scanner = Scanner::new(alloc);
    let mut end = after_header(bytes);
    let mut records = 0;
    while end < bytes.len() {
        match record_reach(&mut scanner, bytes, end)? {
            Reach::Ended(next) => {
                end = next;
                records += 1;
            }
            Reach::Bad => return Ok(Cut { end, records }),
            Reach::Open => return Ok(Cut { end, records }),
        }
    }
    Ok(Cut { end, records })
}

/// Returns the offset of the first record: 15 where the bytes begin with the header, and 0 otherwise.
pub fn after_header(bytes: &[u8]) -> usize
    ensures { result ≡ length (header_of bytes.now) }
{
    if bytes.len() >= HEADER.len() && bytes[..HEADER.len()] == HEADER[..] {
        HEADER.len()
    } else {
        0
    }
}
