//! Reads the numbers at the end of a line one by one, where they are plainly written, without keeping words.
ghost use Rattle.std.specs.Prelude.{◌≡◌, pos, ◌++◌, ◌∷◌, ◌-◌, ◌≤◌, [], false, map, All, IfOk, IfSome};
ghost use Rattle.std.specs.Bool.{OnTrue};
ghost use Rattle.figure_text.specs.Words.{words_left};
ghost use Rattle.figure_text.specs.Lines.{vertex_of, integer_of};
ghost use Rattle.figure_text.specs.Plain.{IsVertexAt, IsNeighbour, IsCoordinateAt, IsCoordinateWord};

use crate::line_shapes::MOST_COORDINATE;
use crate::line_words::{Digits, plain_at, short_at};
use map_lists::ItemLists;
use pg_plane::Ints;
use std::alloc::AllocError;

// Returns the vertex number that begins at index `at` of `line`, from 1 to 65535, if it is plainly written: with at
// most six digits, no sign and no leading 0. None promises nothing.
#[inline(always)]
fn vertex_at(line: &[u8], at: usize) -> Option<Digits>
    ensures { IfSome result (IsVertexAt line.now at) }
{
    if line.len() <= at || line[at] == b'0' {
        return None;
    }
    match plain_at(line, at) {
        Some(digits) if 1 <= digits.value && digits.value <= 65535 => Some(digits),
        _ => None,
    }
}

// Like [`vertex_at`], but only if a space follows at most four digits. None promises nothing. It is faster.
#[inline(always)]
fn short_vertex_at(line: &[u8], at: usize) -> Option<Digits>
    ensures { IfSome result (IsVertexAt line.now at) }
{
    if line.len() < 5 || line.len() - 5 < at || line[at] == b'0' {
        return None;
    }
    match short_at(line, at) {
        Some(digits) if 1 <= digits.value && digits.value <= 65535 => Some(digits),
        _ => None,
    }
}

// Converts `number`, which counts vertices from 1, to the vertex, which counts from 0.
fn vertex(number: u32) -> u16
    requires least { 1 ≤ number }
    requires most { number ≤ 65535 }
    ensures { result ≡ number - 1 }
{
    (number - 1) as u16
}

/// Appends to `lists` the list of the vertices in `line` from index `start` on, if each word there is plainly written:
/// a number from 1 to 65535, with no sign or leading 0. Otherwise returns false, and leaves `lists` unchanged.
pub fn push_plain(line: &[u8], start: usize, lists: &mut ItemLists<u16>) -> Result<bool, AllocError>
    ensures good { IfOk result (λ good. OnTrue good (All (λ w. IsNeighbour w) (words_left line.now start)
        × (lists.new ≡ lists.old ++ map vertex_of (words_left line.now start) ∷ []))) }
    ensures bad { IfOk result (λ good. good ≡ false → lists.new ≡ lists.old) }
{
    let before = lists.len();
    lists.open()?;
    let mut at = start;
    while let Some(short) = short_vertex_at(line, at) {
        lists.append(vertex(short.value))?;
        at = short.end + 1;
    }
    while let Some(digits) = vertex_at(line, at) {
        lists.append(vertex(digits.value))?;
        at = digits.end + 1;
    }
    if line.len() < at {
        return Ok(true);
    }
    lists.truncate(before);
    Ok(false)
}

// Returns the coordinate at index `at` of `line`, at most 2^20, if plainly written: no sign. None promises nothing.
#[inline(always)]
fn coordinate_at(line: &[u8], at: usize) -> Option<Digits>
    ensures { IfSome result (IsCoordinateAt line.now at) }
{
    match plain_at(line, at) {
        Some(digits) if digits.value <= MOST_COORDINATE => Some(digits),
        _ => None,
    }
}

/// Returns the coordinate that begins at index `at` of `line`, if it has no sign and at most four digits, and a space
/// follows. None promises nothing.
#[inline(always)]
pub fn short_coordinate_at(line: &[u8], at: usize) -> Option<Digits>
    ensures { IfSome result (IsCoordinateAt line.now at) }
{
    match short_at(line, at) {
        Some(digits) if digits.value <= MOST_COORDINATE => Some(digits),
        _ => None,
    }
}

// Converts `number` to a coordinate.
fn coordinate(number: u32) -> i32
    requires { number ≤ 1048576 }
    ensures { result ≡ pos number }
{
    number as i32
}

/// Appends to `list` the numbers in `line` from index `start` on, up to the first word that is no coordinate without a
/// sign. Returns true if there is none. False promises nothing of `list`.
pub fn push_coordinates(line: &[u8], start: usize, list: &mut Ints) -> Result<bool, AllocError>
    ensures { IfOk result (λ good. OnTrue good (All (λ w. IsCoordinateWord w) (words_left line.now start)
        × (list.new ≡ list.old ++ map integer_of (words_left line.now start)))) }
{
    let mut at = start;
    while let Some(short) = short_coordinate_at(line, at) {
        list.push(coordinate(short.value))?;
        at = short.end + 1;
    }
    while let Some(digits) = coordinate_at(line, at) {
        list.push(coordinate(digits.value))?;
        at = digits.end + 1;
    }
    Ok(line.len() < at)
}
