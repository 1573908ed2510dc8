//! The lines of the output, as text: counts, refusals, and the last line of a run.
ghost use Rattle.std.specs.Prelude.{◌≡◌, ◌+◌, ◌++◌, ◌∷◌, [], OnOk, IfOk, decimal};
ghost use Rattle.pigale_shell.specs.Text.{counts_line, refusal_bytes, refusal_line as refusal_line_of, last_line as last_line_of};
ghost use Rattle.map_theory.specs.Maps.{genus_of};
ghost use Rattle.pigale_shell.specs.Lines.{ending_of};

use euler_faces::EulerCount;
use itoa::Buffer;
use refusals::Refusal;
use std::alloc::{AllocError, Global};

// The most bytes that a line of six words and six numbers takes.
const LINE: usize = 96;

/// How an input of planar_code ends.
#[derive(Clone, Copy, PartialEq, Eq)]
pub enum Ending {
    /// After the last record.
    Well,
    /// Inside the record that begins at this offset.
    EndInRecord(usize),
    /// At a bad count at this offset.
    BadCount(usize),
    /// Not within the bytes that are read.
    TooLong,
}

// Appends a space and the decimal digits of `number` to `out`. It fails only when out of memory.
pub(crate) fn push_number(out: &mut Vec<u8>, number: u64) -> Result<(), AllocError>
    ensures { OnOk result (out.new.items ≡ out.old.items ++ 32 ∷ decimal number) }
{
    let mut buffer = Buffer::new();
    out.push(b' ')?;
    out.extend_from_slice(buffer.format(number).as_bytes())
}

/// Returns the count line of record `number`.
pub fn count_line(alloc: Global, number: u32, count: &EulerCount) -> Result<Vec<u8>, AllocError>
    ensures { IfOk result (λ line. line.items ≡ counts_line number count.now.n count.now.m count.now.f count.now.c
        (genus_of count.now.n count.now.m count.now.f count.now.c)) }
{
    let mut line = Vec::with_capacity(alloc, LINE)?;
    line.extend_from_slice(b"count")?;
    push_number(&mut line, u64::from(number))?;
    line.extend_from_slice(b" n")?;
    push_number(&mut line, u64::from(count.n))?;
    line.extend_from_slice(b" m")?;
    push_number(&mut line, u64::from(count.m))?;
    line.extend_from_slice(b" f")?;
    push_number(&mut line, u64::from(count.f))?;
    line.extend_from_slice(b" c")?;
    push_number(&mut line, u64::from(count.c))?;
    line.extend_from_slice(b" genus")?;
    push_number(&mut line, u64::from(count.genus()))?;
    line.push(b'\n')?;
    Ok(line)
}

// Appends `name`, a space and the number `given` to `out`.
fn push_named(out: &mut Vec<u8>, name: &[u8], given: u64) -> Result<(), AllocError>
    ensures { OnOk result (out.new.items ≡ out.old.items ++ (name.now ++ 32 ∷ decimal given)) }
{
    out.extend_from_slice(name)?;
    push_number(out, given)
}

// Appends `name`, a space and the number of vertex `v`, which is printed from 1, to `out`.
fn push_vertex(out: &mut Vec<u8>, name: &[u8], v: u16) -> Result<(), AllocError>
    ensures { OnOk result (out.new.items ≡ out.old.items ++ (name.now ++ 32 ∷ decimal (v + 1))) }
{
    push_named(out, name, u64::from(v) + 1)
}

// Appends `name` and the numbers of the vertices `v` and `u`, which are printed from 1, to `out`.
fn push_vertices(out: &mut Vec<u8>, name: &[u8], v: u16, u: u16) -> Result<(), AllocError>
    ensures { OnOk result (out.new.items
        ≡ out.old.items ++ ((name.now ++ 32 ∷ decimal (v + 1)) ++ 32 ∷ decimal (u + 1))) }
{
    push_vertex(out, name, v)?;
    push_number(out, u64::from(u) + 1)
}

// Appends to `out` the number and name of the condition `refusal`, and the vertices or the count that it names.
fn push_refusal(out: &mut Vec<u8>, refusal: Refusal) -> Result<(), AllocError>
    ensures { OnOk result (out.new.items ≡ out.old.items ++ refusal_bytes refusal) }
{
    match refusal {
        Refusal::OutOfRange(v, u) => push_vertices(out, b"1 OutOfRange", v, u),
        Refusal::Loop(v) => push_vertex(out, b"2 Loop", v),
        Refusal::Repeated(v, u) => push_vertices(out, b"3 Repeated", v, u),
        Refusal::OneSided(v, u) => push_vertices(out, b"4 OneSided", v, u),
        Refusal::Small(n) => push_named(out, b"5 Small", u64::from(n)),
        Refusal::Genus(g) => push_named(out, b"6 Genus", u64::from(g)),
        Refusal::NotConnected => out.extend_from_slice(b"7 NotConnected"),
        Refusal::CutVertex(v) => push_vertex(out, b"8 CutVertex", v.0),
        Refusal::SeparatingPair(u, v) => push_vertices(out, b"9 SeparatingPair", u.0, v.0),
        Refusal::OuterNotQuad => out.extend_from_slice(b"10 OuterNotQuad"),
        Refusal::NotTriangle(v, u) => push_vertices(out, b"11 NotTriangle", v.0, u.0),
        Refusal::SeparatingTriangle(a, b, c) => {
            push_vertices(out, b"12 SeparatingTriangle", a.0, b.0)?;
            push_number(out, u64::from(c.0) + 1)
        }
        Refusal::NoInner => out.extend_from_slice(b"13 NoInner"),
    }
}

/// Returns the line that refuses record `number` for the condition `refusal`, as text.
pub fn refusal_line(alloc: Global, number: u32, refusal: Refusal) -> Result<Vec<u8>, AllocError>
    ensures { IfOk result (λ line. line.items ≡ refusal_line_of number refusal) }
{
    let mut line = Vec::with_capacity(alloc, LINE)?;
    line.extend_from_slice(b"refused")?;
    push_number(&mut line, u64::from(number))?;
    line.push(b' ')?;
    push_refusal(&mut line, refusal)?;
    line.push(b'\n')?;
    Ok(line)
}

// Returns the line of a bad ending: the two words `words`, as `stop Limit`, and the offset or line number `place`.
pub(crate) fn stop_line(alloc: Global, words: &[u8], place: usize) -> Result<Vec<u8>, AllocError>
    ensures { IfOk result (λ line. line.items ≡ (words.now ++ 32 ∷ decimal place) ++ 10 ∷ []) }
{
    let mut line = Vec::from_slice(alloc, words)?;
    push_number(&mut line, place as u64)?;
    line.push(b'\n')?;
    Ok(line)
}

// Returns the last line of a run whose input ended well: the number of records, and of those refused.
pub(crate) fn end_line(alloc: Global, records: u32, refused: u32) -> Result<Vec<u8>, AllocError>
    ensures { IfOk result (λ line. line.items ≡ last_line_of records refused (ending_of Ending.Well)) }
{
    let mut line = Vec::from_slice(alloc, b"end records")?;
    push_number(&mut line, u64::from(records))?;
    line.extend_from_slice(b" refused")?;
    push_number(&mut line, u64::from(refused))?;
    line.push(b'\n')?;
    Ok(line)
}

/// Returns the last line of a run: `end` with the numbers `records` and `refused`, or `stop` with the bad `ending`.
pub fn last_line(
    alloc: Global,
    records: u32,
    refused: u32,
    ending: Ending,
) -> Result<Vec<u8>, AllocError>
    ensures { IfOk result (λ line. line.items ≡ last_line_of records refused (ending_of ending)) }
{
    match ending {
        Ending::Well => end_line(alloc, records, refused),
        Ending::EndInRecord(place) => stop_line(alloc, b"stop EndInRecord", place),
        Ending::BadCount(place) => stop_line(alloc, b"stop BadCount", place),
        Ending::TooLong => Vec::from_slice(alloc, b"stop TooLong\n"),
    }
}
