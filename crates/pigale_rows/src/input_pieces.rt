//! Pieces appended to a test input: bytes in hexadecimal, lines of text, and records of maps.
use crate::graph_inputs;
use crate::map_families::map_of;
use map_lists::Rotations;
use std::alloc::Global;

/// Splits a line of the table at its first space. Where it has none, the second half is `other`.
pub fn halves<'a>(text: &'a str, other: &'a str) -> (&'a str, &'a str) {
    text.split_once(' ').unwrap_or((text, other))
}

/// Appends to `input` the one byte of `bytes` `times` times. Returns false where `bytes` are not just one.
fn put_many(input: &mut Vec<u8>, bytes: &[u8], times: usize) -> bool {
    match bytes {
        [byte] => {
            let _ = input.resize(input.len().saturating_add(times), *byte);
            true
        }
        _ => false,
    }
}

/// Appends `bytes` to `input`, or a single byte as often as the text `times` says. Returns false where it says neither.
fn put_times(input: &mut Vec<u8>, bytes: &[u8], times: &str) -> bool {
    match times.parse::<usize>() {
        Ok(times) => put_many(input, bytes, times),
        Err(_) => {
            let _ = input.extend_from_slice(bytes);
            times.is_empty()
        }
    }
}

/// Appends to `input` bytes in hexadecimal, or a byte, `*` and how often it comes. Returns false where `word` is
/// neither.
fn put_digits(alloc: Global, input: &mut Vec<u8>, word: &str) -> bool {
    let (digits, times) = word.split_once('*').unwrap_or((word, ""));
    match hex::decode(alloc, digits) {
        Ok(bytes) => put_times(input, &bytes, times),
        Err(_) => false,
    }
}

/// Appends to `input` the bytes that the words of `rest` give in hexadecimal. Returns false where one does not.
fn put_bytes(alloc: Global, input: &mut Vec<u8>, rest: &str) -> bool {
    for word in rest.split_whitespace() {
        if !put_digits(alloc, input, word) {
            return false;
        }
    }
    true
}

/// Appends `text` to `input`, and a line end if it is a closed line. It always returns true.
fn put_text(input: &mut Vec<u8>, text: &str, closed: bool) -> bool {
    let _ = input.extend_from_slice(text.as_bytes());
    if closed {
        let _ = input.push(b'\n');
    }
    true
}

/// Appends a number of a planar_code record, in two bytes if `wide` is set, else in one.
fn put_number(input: &mut Vec<u8>, wide: bool, number: u16) {
    let [high, low] = number.to_be_bytes();
    if wide {
        let _ = input.push(high);
    }
    let _ = input.push(low);
}

/// Appends the numbers of a list of a planar_code record, and the 0 after them.
fn put_list(input: &mut Vec<u8>, wide: bool, list: &[u16]) {
    for u in list {
        put_number(input, wide, u.saturating_add(1));
    }
    put_number(input, wide, 0);
}

/// Appends `lists` as a planar_code record, wide or narrow.
fn put_record(input: &mut Vec<u8>, wide: bool, lists: &Rotations) {
    if wide {
        let _ = input.push(0);
    }
    put_number(input, wide, u16::try_from(lists.len()).unwrap_or(0));
    for v in 0..lists.len() {
        put_list(input, wide, lists.list(v));
    }
}

/// Appends the planar_code record of `lists`, wide if it must be or `wide` is set. Returns false where there are no
/// lists.
fn put_lists(input: &mut Vec<u8>, wide: bool, lists: &Rotations) -> bool {
    if lists.len() == 0 {
        return false;
    }
    put_record(input, wide || 255 < lists.len(), lists);
    true
}

/// Appends the planar_code record of a map of `family`, with the size and number in `rest`. Returns false where there
/// is none.
fn put_map(alloc: Global, input: &mut Vec<u8>, wide: bool, family: &str, rest: &str) -> bool {
    let (first, second) = halves(rest, "0");
    match (first.parse::<u16>(), second.parse::<u16>()) {
        (Ok(size), Ok(number)) => put_lists(input, wide, &map_of(alloc, family, size, number)),
        _ => false,
    }
}

/// Appends the planar_code record of the map that a line names, wide if its first word says so. Returns false where
/// it names none.
fn put_named_map(alloc: Global, input: &mut Vec<u8>, word: &str, rest: &str) -> bool {
    if word == "wide" {
        let (family, rest) = halves(rest, "");
        put_map(alloc, input, true, family, rest)
    } else {
        put_map(alloc, input, false, word, rest)
    }
}

/// Appends to `input` what a line with this first `word` and `rest` gives. Returns false where there is no such line.
pub fn put(alloc: Global, input: &mut Vec<u8>, word: &str, rest: &str) -> bool {
    match word {
        "bytes" => put_bytes(alloc, input, rest),
        "<" => put_text(input, rest, true),
        "open" => put_text(input, rest, false),
        "graph" => graph_inputs::put_graph(alloc, input),
        "edge" => graph_inputs::put_edge(input, rest),
        _ => put_named_map(alloc, input, word, rest),
    }
}
