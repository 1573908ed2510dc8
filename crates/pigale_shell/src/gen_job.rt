//! The job `gen`, which reads nothing: it makes one map, counts it, and sums over its drawing.
ghost use Rattle.std.specs.Prelude.{◌≡◌, ◌⊎◌, ◌<◌, ◌≤◌, ◌++◌, ◌∷◌, ℕ, List, [], length, Some, None, pos, neg_ℤ, ◌+ℤ◌, ◌≤ℤ◌, OnOk, IfOk};
ghost use Rattle.std.specs.Fmt.{signed_decimal};
ghost use Rattle.map_theory.specs.Maps.{vertex_count, edge_count, face_count, component_count};
ghost use Rattle.simple_maps.specs.Faults.{first_fault};
ghost use Rattle.grid_figures.specs.ShiftFiguresFigures.{IsShiftFigure};
ghost use Rattle.refusals.specs.Conditions.{first_refusal};
ghost use Rattle.map_gen.specs.Stacked.{stacked as stacked_lists};
ghost use Rattle.record_runs.specs.Outcome.{ports, Outcome as RunOutcome};
ghost use Rattle.planar_code.specs.Reading.{well};
ghost use Rattle.pigale_shell.specs.Text.{last_line as last_line_of};
ghost use Rattle.pigale_shell.specs.Made.{total_x, total_y, sums_line as sums_line_of, IsMadeBlock, made, made_answers};

use super::output_lines::{Ending, count_line, last_line, push_number};
use euler_faces::{EulerCount, count_lists};
use grid_figures::shift_figures::shift_figure;
use half_edges::{MapFault, Rotations};
use itoa::Buffer;
use map_gen::stacked;
use pg_io::{Sink, put_all};
use pg_plane::{GridFigure, Points};
use record_runs::RunEnd;
use refusals::Unserved;
use std::alloc::{AllocError, Global};

// Returns `sum`, from -2^44 to 2^44, with `number` added.
fn added(sum: i64, number: i32) -> i64
    requires least { neg_ℤ (pos 17592186044416) ≤ℤ sum }
    requires most { sum ≤ℤ pos 17592186044416 }
    ensures { result ≡ sum +ℤ number }
{
    sum + i64::from(number)
}

// Returns the sums of x and of y over `points`, fewer than 4096 of them.
fn sums(points: &Points) -> (i64, i64)
    requires { length points.now < 4096 }
    ensures x { result.0 ≡ total_x points.now }
    ensures y { result.1 ≡ total_y points.now }
{
    let mut x: i64 = 0;
    let mut y: i64 = 0;
    for i in 0..points.len() {
        let point = points.get(i);
        x = added(x, point.x);
        y = added(y, point.y);
    }
    (x, y)
}

// Appends a space and a number that may be negative to `out`.
fn push_signed(out: &mut Vec<u8>, number: i64) -> Result<(), AllocError>
    ensures { OnOk result (out.new.items ≡ out.old.items ++ 32 ∷ signed_decimal number) }
{
    let mut buffer = Buffer::new();
    out.push(b' ')?;
    out.extend_from_slice(buffer.format(number).as_bytes())
}

// Returns the line of the sums `x` and `y` over the points of record `number`.
fn sums_line(alloc: Global, number: u32, x: i64, y: i64) -> Result<Vec<u8>, AllocError>
    ensures { IfOk result (λ line. line.items ≡ sums_line_of number x y) }
{
    let mut line = Vec::from_slice(alloc, b"verdict")?;
    push_number(&mut line, u64::from(number))?;
    line.extend_from_slice(b" yes sum")?;
    push_signed(&mut line, x)?;
    push_signed(&mut line, y)?;
    line.push(b'\n')?;
    Ok(line)
}

// Returns the counts of `lists`, a simple map with at least one vertex. It fails only when out of memory.
fn count(alloc: Global, lists: &Rotations) -> Result<EulerCount, AllocError>
    requires some_list { 0 < length lists.now }
    requires simple { first_fault lists.now ≡ None }
    ensures n { IfOk result (λ count. count.n ≡ vertex_count lists.now) }
    ensures m { IfOk result (λ count. count.m ≡ edge_count lists.now) }
    ensures f { IfOk result (λ count. count.f ≡ face_count lists.now) }
    ensures c { IfOk result (λ count. count.c ≡ component_count lists.now) }
{
    match count_lists(alloc, lists) {
        Ok(count) => Ok(count),
        Err(MapFault::NoMemory) => Err(AllocError),
        Err(_) => unreachable!(),
    }
}

// Draws `lists`, a simple map of genus zero with n >= 3, by the shift method. It fails only when out of memory.
fn figure(alloc: Global, lists: &Rotations) -> Result<GridFigure, AllocError>
    requires some_list { 0 < length lists.now }
    requires served { first_refusal 3 lists.now ≡ None }
    ensures { IfOk result (IsShiftFigure lists.now) }
{
    match shift_figure(alloc, lists) {
        Ok(figure) => Ok(figure),
        Err(Unserved::NoMemory) => Err(AllocError),
        Err(Unserved::Refused(_)) => unreachable!(),
    }
}

// Returns the block of record `number`, with `lists` a simple map of genus zero with n >= 3: its count line, and the
// line of the sums over its drawing. It fails only when out of memory.
fn block(alloc: Global, number: u32, lists: &Rotations) -> Result<Vec<u8>, AllocError>
    requires some_list { 0 < length lists.now }
    requires served { first_refusal 3 lists.now ≡ None }
    ensures { IfOk result (λ block. IsMadeBlock number lists.now block.items) }
{
    lists.facts();
    let mut block = count_line(alloc, number, &count(alloc, lists)?)?;
    let figure = figure(alloc, lists)?;
    let (x, y) = sums(&figure.points);
    block.extend_from_slice(&sums_line(alloc, number, x, y)?)?;
    Ok(block)
}

// Returns the whole output of `gen`: the block (answer) of the map of `size` vertices, 3 to 4095, made from the seed
// `number`, and the last line. It fails only when out of memory.
fn text(alloc: Global, size: u16, number: u32) -> Result<Vec<u8>, AllocError>
    requires some { 3 ≤ size }
    requires few { size < 4096 }
    ensures { IfOk result (λ text. (block : List ℕ) × IsMadeBlock 1 (stacked_lists size number) block × (text.items ≡ block ++ last_line_of 1 0 well)) }
{
    map_gen::stacked_is_triangulation();
    refusals::no_refusal_is_plane();
    let lists = stacked(alloc, size, number)?;
    let mut text = block(alloc, 1, &lists)?;
    text.extend_from_slice(&last_line(alloc, 1, 0, Ending::Well)?)?;
    Ok(text)
}

/// Writes the answer of the job `gen` to `out`: the block of the map that is made of `size` vertices, 3 to 4095, from
/// the seed `number`, and the last line. It reads nothing. Returns `Done`, `WriteFault` or `NoMemory`.
pub fn run_made<K: Sink>(alloc: Global, size: u16, number: u32, out: &mut K) -> RunEnd
    requires some { 3 ≤ size }
    requires few { size < 4096 }
    ensures outcome { (reads : ℕ) → RunOutcome (made size number) made_answers
        (ports (Some []) reads (K.written out.old) (K.faults out.old))
        (ports (Some []) reads (K.written out.new) (K.faults out.new)) result }
    ensures only { (result ≡ RunEnd.Done) ⊎ (result ≡ RunEnd.WriteFault) ⊎ (result ≡ RunEnd.NoMemory) }
{
    let Ok(text) = text(alloc, size, number) else {
        return RunEnd::NoMemory;
    };
    match put_all(out, &text) {
        Ok(()) => RunEnd::Done,
        Err(_) => RunEnd::WriteFault,
    }
}
