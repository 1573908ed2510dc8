//! The turn of a row of a rectangular order: the index where the contour's horizontal edges begin under a new vertex.

ghost use Rattle.std.specs.Prelude.{◌≡◌, ◌<◌, ◌≤◌, ◌+◌, ℕ, length, slice_index, All, IfOk};
ghost use Rattle.map_theory.specs.Maps.{list_of};
ghost use Rattle.contour_runs.specs.Runs.{Step};
ghost use Rattle.order_drawings.specs.Rows.{AreRows};
ghost use Rattle.rect_dual.specs.Turns.{IsTurnIn, AreTurns};

use map_lists::Rotations;
use std::alloc::{AllocError, Global};

/// The turns of the rows of a rectangular order, one after another.
#[derive(Drop)]
pub struct RowTurns {
    /// The index of each turn in its row, from 0.
    pub place: Vec<usize>,
    /// Whether the edge after it is horizontal (a run).
    pub run: Vec<bool>,
}

/// The rows of a rectangular order, and the turn of each.
#[derive(Clone, Copy)]
pub(crate) struct TurnedRows<'a> {
    pub(crate) rows: &'a Rotations,
    /// For each row the index of its turn.
    pub(crate) places: &'a [usize],
    /// For each row whether the edge after the turn is horizontal.
    pub(crate) runs: &'a [bool],
    ghost places_count: { length places.now ≡ length rows.now },
    ghost runs_count: { length runs.now ≡ length rows.now },
    ghost turns: { (k : ℕ) → k < length rows.now → slice_index places.now k + 2 ≤ length (list_of rows.now k) },
    ghost within: { (k : ℕ) → k < length rows.now → All (λ u. u < length rows.now + 2) (list_of rows.now k) },
}

// Returns the first index in `row` from which a horizontal contour edge leads on, or the last but one where there is
// none before. `runs` says for each vertex whether the edge after it is horizontal.
fn turn_place(row: &[u16], runs: &[bool]) -> usize
    requires some { 2 ≤ length row.now }
    requires within { All (λ u. u < length runs.now) row.now }
    ensures { IsTurnIn row.now runs.now result }
{
    for i in 0..row.len() - 2 {
        if runs[row[i] as usize] {
            return i;
        }
    }
    row.len() - 2
}

/// Returns the turn of each of `rows`, the contour intervals of a construction sequence, in linear time. It is the
/// index of the first vertex with a horizontal edge after it, or of the last vertex but one. It fails only when out of
/// memory.
pub fn row_turns(alloc: Global, rows: &Rotations) -> Result<RowTurns, AllocError>
    requires run { (steps : ℕ → Step) × AreRows steps rows.now }
    ensures { IfOk result (λ turns. (steps : ℕ → Step) → AreRows steps rows.now → AreTurns steps (length rows.now) turns.place.items turns.run.items) }
{
    // For each vertex of the contour whether the edge after it is horizontal: at first none is.
    let mut runs = vec![in alloc; false; rows.len() + 2]?;
    let mut place = Vec::new(alloc);
    let mut run = Vec::new(alloc);
    for k in 0..rows.len() {
        let row = rows.list(k);
        let c = turn_place(row, &runs);
        place.push(c)?;
        run.push(runs[row[c] as usize])?;
        runs[row[0] as usize] = true;
    }
    Ok(RowTurns { place, run })
}
