//! Test rows on records of planar_code: fed byte by byte, taken in pieces, read whole, and written.
ghost use Rattle.std.specs.Prelude.{◌+◌, ◌<◌, ◌≤◌, length, All, IsTrue};
ghost use Rattle.planar_code.specs.Write.{AreBelow};

use half_edges::Rotations;
use planar_code::{
    CodeFault, Fed, RecordReader, Step, Taken, after_header, last_cut, next_record, write_record,
};
use row_texts::fault_texts::tell_no_memory;
use row_texts::lists::{SomeLists, lists_of, put_lists};
use row_texts::reply::Reply;
use row_texts::row_arguments::{number, numbers};
use row_texts::rows::Row;
use std::alloc::{AllocError, Global};

// Appends to `bytes` the pieces of `text` between spaces: `=` and a text, or bytes in hexadecimal, `*` and how often.
fn put_pieces(alloc: Global, bytes: &mut Vec<u8>, text: &str) {
    for piece in text.split_whitespace() {
        if let Some(text) = piece.strip_prefix('=') {
            let _ = bytes.extend_from_slice(text.as_bytes());
            continue;
        }
        let (digits, times) = piece.split_once('*').unwrap_or((piece, "1"));
        if let Ok(found) = hex::decode(alloc, digits) {
            for _ in 0..number(times) {
                let _ = bytes.extend_from_slice(&found);
            }
        }
    }
}

// Returns the bytes of the pieces of `text`, as `put_pieces` reads them.
fn bytes_of(alloc: Global, text: &str) -> Vec<u8> {
    let mut bytes = Vec::new(alloc);
    put_pieces(alloc, &mut bytes, text);
    bytes
}

// Appends the lists of a record to `out`, in brackets.
fn put_record(lists: &Rotations, out: &mut Reply) {
    out.put_letter('[');
    put_lists(lists, out);
    out.put_letter(']');
}

// Feeds `bytes` to a reader one by one, and appends each outcome to `out`: a dot, the lists of a record, or `bad` and
// its offset.
fn put_fed(bytes: &[u8], out: &mut Reply) -> Result<(), AllocError>
    requires { length bytes.now < 1000 }
{
    let mut reader = RecordReader::new(out.alloc);
    for byte in bytes {
        match reader.feed(*byte)? {
            Fed::More => out.put_letter('.'),
            Fed::Record(lists) => put_record(&lists, out),
            Fed::Bad(at) => out.put_one("bad", at as u64),
        }
    }
    Ok(())
}

// Returns the next bytes from the offset `at` on, at most `at_once`.
fn piece_at(bytes: &[u8], at: usize, at_once: usize) -> &[u8]
    requires within { at < length bytes.now }
    requires some { 0 < at_once }
    ensures some { 0 < length result.now }
    ensures within { at + length result.now ≤ length bytes.now }
{
    let rest = &bytes[at..];
    &rest[..at_once.min(rest.len())]
}

// Reads `bytes` in pieces of `at_once`, and appends to `out` the records up to a bad count.
fn put_taken(bytes: &[u8], at_once: usize, out: &mut Reply) -> Result<(), AllocError>
    requires short { length bytes.now < 1000 }
    requires some { 0 < at_once }
{
    let mut reader = RecordReader::new(out.alloc);
    let mut at = 0;
    while at < bytes.len() {
        let piece = piece_at(bytes, at, at_once);
        match reader.take(piece)? {
            Taken::More => at += piece.len(),
            Taken::Ended(k) => {
                at += k;
                put_record(reader.lists(), out);
            }
            Taken::Bad(_, place) => {
                out.put_one("bad", place as u64);
                return Ok(());
            }
        }
    }
    Ok(())
}

// Feeds fewer than 1000 bytes one by one, or reads them in pieces of each of the `sizes`, and appends the outcome to
// `out`.
fn put_few(sizes: &[u16], bytes: &[u8], out: &mut Reply) {
    if 1000 <= bytes.len() {
        return;
    }
    if sizes.is_empty() {
        let _ = put_fed(bytes, out);
    }
    for size in sizes {
        if 0 < *size {
            let _ = put_taken(bytes, usize::from(*size), out);
            out.put_letter(' ');
        }
    }
}

// Appends to `out` the record found at an offset, or the fault there.
fn put_step(found: &Result<Step, CodeFault>, out: &mut Reply) {
    match found {
        Ok(Step::Lists(lists, end)) => {
            put_record(lists, out);
            out.put_one(" to", *end as u64);
        }
        Ok(Step::End) => out.put("End"),
        Err(CodeFault::EndInRecord(start)) => out.put_one("EndInRecord", *start as u64),
        Err(CodeFault::BadCount(start)) => out.put_one("BadCount", *start as u64),
        Err(CodeFault::NoMemory) => tell_no_memory(out),
    }
}

// Appends to `out` where `bytes` may be cut, and how many records stand before that.
fn put_cut(bytes: &[u8], out: &mut Reply) {
    match last_cut(out.alloc, bytes) {
        Ok(cut) => {
            out.put_number(cut.end as u64);
            out.put_one(" behind", cut.records as u64);
        }
        Err(AllocError) => tell_no_memory(out),
    }
}

// Says whether all entries of `lists` are below `limit`.
fn are_below(lists: &Rotations, limit: u16) -> bool
    ensures { IsTrue result → AreBelow limit lists.now }
{
    for v in 0..lists.len() {
        if !lists.list(v).iter().all(|u| *u < limit) {
            return false;
        }
    }
    true
}

// Appends the record of the lists `given` to `bytes`, if they have one.
fn put_written(given: &SomeLists, bytes: &mut Vec<u8>) {
    let limit = if 255 < given.lists.len() { 65535 } else { 255 };
    if are_below(&given.lists, limit) {
        let _ = write_record(&given.lists, bytes);
    }
}

// Says whether the record found at an offset is that of `lists`, up to the offset `end`.
fn is_back(lists: &Rotations, end: usize, found: &Result<Step, CodeFault>) -> bool {
    match found {
        Ok(Step::Lists(read, next)) => {
            lists.entries() == read.entries() && lists.ends() == read.ends() && *next == end
        }
        _ => false,
    }
}

// Writes the record of the lists `given` between the bytes of two arguments, reads it back, and appends its offsets
// to `out`.
fn write_and_read(given: &SomeLists, row: &Row<'_>, out: &mut Reply) {
    let mut bytes = bytes_of(out.alloc, row.arg(1));
    let at = bytes.len();
    put_written(given, &mut bytes);
    let end = bytes.len();
    put_pieces(out.alloc, &mut bytes, row.arg(2));
    if bytes.len() < at {
        return;
    }
    let found = next_record(out.alloc, &bytes, at);
    if is_back(&given.lists, end, &found) {
        out.put_number(end.wrapping_sub(at) as u64);
        out.put_one(" bytes from", at as u64);
        out.put_one(" to", end as u64);
        out.put_one(" of", bytes.len() as u64);
    } else {
        put_step(&found, out);
    }
}

// Appends to `out` in hexadecimal the bytes of `text` and the record of the lists `given`.
fn write(given: &SomeLists, text: &str, out: &mut Reply) {
    let mut bytes = bytes_of(out.alloc, text);
    put_written(given, &mut bytes);
    match hex::encode(out.alloc, &bytes) {
        Ok(text) => out.put(text.as_str()),
        Err(_) => tell_no_memory(out),
    }
}

/// Appends to `out` the answer to a row on records.
pub fn answer(row: &Row<'_>, out: &mut Reply) {
    match row.call {
        "feed" => put_few(&[], &bytes_of(out.alloc, row.arg(0)), out),
        "pieces" => {
            let sizes = numbers(out.alloc, row.arg(0));
            put_few(&sizes, &bytes_of(out.alloc, row.arg(1)), out);
        }
        "next" => {
            let bytes = bytes_of(out.alloc, row.arg(1));
            let at = usize::from(row.number(0));
            if at <= bytes.len() {
                put_step(&next_record(out.alloc, &bytes, at), out);
            }
        }
        "cut" => put_cut(&bytes_of(out.alloc, row.arg(0)), out),
        "header" => out.put_number(after_header(&bytes_of(out.alloc, row.arg(0))) as u64),
        _ => {
            if let Some(lists) = lists_of(out.alloc, row.arg(0)) {
                if row.call == "write" {
                    write(&lists, row.arg(1), out);
                } else {
                    write_and_read(&lists, row, out);
                }
            }
        }
    }
}
