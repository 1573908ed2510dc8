//! Reads and writes graph6 lines, with their faults as the type `G6Fault`.
ghost use Rattle.std.specs.Prelude.{◌≡◌, ◌≤◌, ◌+◌, ◌-◌, ◌*◌, ◌++◌, ◌∷◌, List, ℕ, length, position, IfOk, IfErr, OnErr, IfSome, IfNone, All, None, Ok};
ghost use Rattle.graphs.specs.Graphs.{EdgeGraph};
ghost use Rattle.graphs.specs.Bits.{IsLineByte, IsBody};
ghost use Rattle.graph6_text.specs.Lines.{IsLine, count_form};
ghost use Rattle.graph6_text.specs.Faults.{NamesFault, is_bad_byte, line_start as start_of, four_byte_start as four_byte_of, is_padded as is_padded_for, body_fault as fault_of_body};

use graphs::Graph;
use graphs::bits::{body_length, spare_bits};
use std::alloc::{AllocError, Global};

/// Why bytes are no line of a graph with at most 255 vertices.
#[derive(Clone, Copy, PartialEq, Eq)]
pub enum G6Fault {
    /// This byte, counted from 0, is the first that is not six bits plus 63.
    BadByte(usize),
    /// The number of vertices has a shorter form, or stands in a form of eight bytes.
    LongCount,
    /// There are this many vertices, which is above 255.
    TooMany(u32),
    /// The bytes end too early.
    ShortLine,
    /// This byte, counted from 0, is the first beyond the bits of all pairs.
    ExtraByte(usize),
    /// In this byte, which is the last, a bit is set that stands for no pair.
    Padding(usize),
    /// There was not enough memory.
    NoMemory,
}

/// Returns the graph of `line`, which is given without the byte 10 that closes it; or the first fault of the line.
pub fn read_line(alloc: Global, line: &[u8]) -> Result<Graph, G6Fault>
    ensures ok { IfOk result (IsLine line.now) }
    ensures fault { IfErr result (NamesFault line.now) }
{
    read_line_into(Graph::new(alloc), line)
}

/// Reads `line` as [`read_line`] does, in the memory of the graph `spent`.
pub fn read_line_into(spent: Graph, line: &[u8]) -> Result<Graph, G6Fault>
    ensures ok { IfOk result (IsLine line.now) }
    ensures fault { IfErr result (NamesFault line.now) }
{
    match bad_place(line) {
        Some(place) => Err(G6Fault::BadByte(place)),
        None => match line_start(line) {
            Ok((n, start)) => read_body(spent, line, n, start),
            Err(fault) => Err(fault),
        },
    }
}

/// Appends the line of `graph` to `out`, without a byte 10. After an error nothing has changed.
pub fn write_line(graph: &Graph, out: &mut Vec<u8>) -> Result<(), AllocError>
    ensures ok { IfOk result (λ _. (line : List ℕ) × (out.new.items ≡ out.old.items ++ line) × IsLine line graph.now) }
    ensures err { OnErr result (out.new.items ≡ out.old.items) }
{
    let before = out.len();
    match push_line(graph, out) {
        Ok(()) => Ok(()),
        Err(_) => {
            out.truncate(before);
            Err(AllocError)
        }
    }
}

// Returns the index of the first byte of `line` that is not six bits plus 63, or None.
fn bad_place(line: &[u8]) -> Option<usize>
    ensures { result ≡ position is_bad_byte line.now }
{
    line.iter().position(|byte| *byte < 63 || 126 < *byte)
}

// Returns the number of vertices that `line` begins with, and in how many bytes; or what is wrong with these.
fn line_start(line: &[u8]) -> Result<(u16, usize), G6Fault>
    ensures { result ≡ start_of line.now }
{
    match line {
        [] => Err(G6Fault::ShortLine),
        [126] => Err(G6Fault::ShortLine),
        [126, 126, ..] => Err(G6Fault::LongCount),
        [126, b, c, d, ..] => four_byte_start(four_byte_count(*b, *c, *d)),
        [126, ..] => Err(G6Fault::ShortLine),
        [a, ..] => Ok((u16::from(a.saturating_sub(63)), 1)),
    }
}

// Returns the number whose 18 bits the bytes `b`, `c` and `d` stand for.
fn four_byte_count(b: u8, c: u8, d: u8) -> u32
    ensures { result ≡ (b - 63) * 4096 + (c - 63) * 64 + (d - 63) }
{
    six_bits(b) * 4096 + six_bits(c) * 64 + six_bits(d)
}

// Returns the six bits that a byte stands for.
fn six_bits(byte: u8) -> u32
    ensures { result ≡ byte - 63 }
{
    u32::from(byte.saturating_sub(63))
}

// Returns `n`, a number of vertices in the form of four bytes, with that length; or what is wrong with it.
fn four_byte_start(n: u32) -> Result<(u16, usize), G6Fault>
    ensures { result ≡ four_byte_of n }
{
    if n < 63 {
        Err(G6Fault::LongCount)
    } else if 255 < n {
        Err(G6Fault::TooMany(n))
    } else {
        Ok((n as u16, 4))
    }
}

// Returns what is wrong with the bytes of `line` after the first `start`, as the bits of `n` vertices, or None.
fn body_fault(line: &[u8], n: u16, start: usize) -> Option<G6Fault>
    requires few { n ≤ 255 }
    requires start { start ≤ 4 }
    ensures { result ≡ fault_of_body line.now n start }
{
    let end = start + body_length(n);
    if line.len() < end {
        Some(G6Fault::ShortLine)
    } else if end < line.len() {
        Some(G6Fault::ExtraByte(end))
    } else if is_padded(line, n) {
        None
    } else {
        Some(G6Fault::Padding(line.len() - 1))
    }
}

// Says whether the last bits of `line`, which stand for no pair of `n` vertices, are zeros.
fn is_padded(line: &[u8], n: u16) -> bool
    requires { n ≤ 255 }
    ensures { result ≡ is_padded_for n line.now }
{
    match line {
        [.., last] => last.saturating_sub(63) % (1 << spare_bits(n)) == 0,
        [] => true,
    }
}

// Returns the graph of `line`, whose first `start` bytes give its number of vertices `n`, in the memory of `spent`.
fn read_body(spent: Graph, line: &[u8], n: u16, start: usize) -> Result<Graph, G6Fault>
    requires bytes { position is_bad_byte line.now ≡ None }
    requires start { start_of line.now ≡ Ok (n, start) }
    ensures ok { IfOk result (IsLine line.now) }
    ensures fault { IfErr result (NamesFault line.now) }
{
    match body_fault(line, n, start) {
        Some(fault) => Err(fault),
        None => match Graph::of_body(spent, n, &line[start..]) {
            Ok(graph) => Ok(graph),
            Err(_) => Err(G6Fault::NoMemory),
        },
    }
}

// Appends the line of `graph` to `out`, or only some of it when out of memory.
fn push_line(graph: &Graph, out: &mut Vec<u8>) -> Result<(), AllocError>
    ensures ok { IfOk result (λ _. (line : List ℕ) × (out.new.items ≡ out.old.items ++ line) × IsLine line graph.now) }
    ensures err { OnErr result ((some : List ℕ) × (out.new.items ≡ out.old.items ++ some)) }
{
    push_count(graph.n(), out)?;
    out.extend_from_slice(graph.body())?;
    Ok(())
}

// Appends the number of vertices `n` to `out` in its graph6 form, or only some of it when out of memory.
fn push_count(n: u16, out: &mut Vec<u8>) -> Result<(), AllocError>
    requires { n ≤ 255 }
    ensures ok { IfOk result (λ _. out.new.items ≡ out.old.items ++ count_form n) }
    ensures err { OnErr result (out.new.items ≡ out.old.items) }
{
    if n <= 62 {
        out.extend_from_slice(&[n as u8 + 63])
    } else {
        out.extend_from_slice(&[126, 63, (n / 64) as u8 + 63, (n % 64) as u8 + 63])
    }
}
