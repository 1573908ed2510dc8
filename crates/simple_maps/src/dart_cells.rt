//! The twins of the darts of few vertices, found by a cell for each two vertices, in loops over all darts that have no
//! branch.
//!
//! Each dart leaves its index in the cell of its ends, where the dart back finds it. What a cell says is tried before it
//! is taken, so cells may hold anything before. Where it fails the pass gives up, as by threads.
ghost use Rattle.std.specs.Prelude.{◌≡◌, ◌+◌, ◌*◌, ◌<◌, ◌≤◌, ◌∷◌, ℕ, length, slice_index, slice_index_or};
ghost use Rattle.std.specs.Bool.{OnTrue};
ghost use Rattle.map_lists.specs.Cuts.{joined, AreCuts};
ghost use Rattle.simple_maps.specs.Tables.{AreSlots};
ghost use Rattle.simple_maps.specs.Pass.{IsTried};

use crate::twin_pass::are_below;
use map_lists::Rotations;

/// The greatest number of vertices that the table serves. It then takes 100 kilobytes.
pub(crate) const FEW: usize = 158;

// Writes to `tails` for each dart the list in which it stands, by the `ends` of the lists. Each list but the last is
// noted at the dart behind it, and the notes are added up.
#[inline(always)]
fn write_tails(ends: &[usize], tails: &mut [u16])
    requires some_list { 0 < length ends.now }
    requires few_lists { length ends.now ≤ 158 }
    requires cuts { AreCuts 0 ends.now (length tails.old) }
    ensures { (w d : ℕ) → w < length ends.now → slice_index_or (0 ∷ ends.now) w 0 ≤ d → d < slice_index ends.now w → slice_index tails.new d ≡ w }
{
    'clear: for d in 0..tails.len() {
        tails[d] = 0;
    }
    'note: for v in 0..ends.len() - 1 {
        let end = ends[v];
        if end < tails.len() {
            tails[end] += 1;
        }
    }
    let mut tail: u16 = 0;
    'sum: for d in 0..tails.len() {
        tail += tails[d];
        tails[d] = tail;
    }
}

// Returns the index of the cell (the table's entry) for vertices `v` and `u` of `n`.
#[inline(always)]
fn cell_of(n: usize, v: u16, u: u16) -> usize
    requires few { n ≤ 158 }
    requires tail { v < n }
    requires head { u < n }
    ensures is { result ≡ n * v + u }
    ensures within { result < n * n }
{
    n * v as usize + u as usize
}

// Writes each dart's index to the cell of its ends. There are `n` vertices.
#[inline(always)]
fn fill_cells(entries: &[u16], tails: &[u16], n: usize, cells: &mut [u32])
    requires few { n ≤ 158 }
    requires few_darts { length entries.now < 16777216 }
    requires tails { length tails.now ≡ length entries.now }
    requires tails_in { (d : ℕ) → d < length entries.now → slice_index tails.now d < n }
    requires heads_in { (d : ℕ) → d < length entries.now → slice_index entries.now d < n }
    requires cells { n * n ≤ length cells.old }
{
    for d in 0..entries.len() {
        cells[cell_of(n, tails[d], entries[d])] = d as u32;
    }
}

// Says whether the cells tell for each dart, of `n` vertices, itself and the dart back, and writes the latter to `twins`.
#[inline(always)]
fn take_twins(entries: &[u16], tails: &[u16], n: usize, cells: &[u32], twins: &mut [u32]) -> bool
    requires few { n ≤ 158 }
    requires some_dart { 0 < length entries.now }
    requires few_darts { length entries.now < 16777216 }
    requires tails { length tails.now ≡ length entries.now }
    requires twins { length twins.old ≡ length entries.now }
    requires tails_in { (d : ℕ) → d < length entries.now → slice_index tails.now d < n }
    requires heads_in { (d : ℕ) → d < length entries.now → slice_index entries.now d < n }
    requires cells { n * n ≤ length cells.now }
    ensures { OnTrue result ((d : ℕ) → d < length entries.now → IsTried entries.now tails.now twins.new cells.now n d) }
{
    let last = entries.len() as u32 - 1;
    let mut wrong: u32 = 0;
    for d in 0..entries.len() {
        let v = tails[d];
        let u = entries[d];
        let twin = cells[cell_of(n, u, v)].min(last);
        wrong |= cells[cell_of(n, v, u)] ^ d as u32;
        wrong |= u32::from((entries[twin as usize] ^ v) | (tails[twin as usize] ^ u));
        wrong |= u32::from(u == v);
        twins[d] = twin;
    }
    wrong == 0
}

// Says whether the pass finds `lists` of at most 158 vertices to be a simple map, and then writes the `tails` and
// `twins` of their darts. `cells` is scratch space, with an entry for each two vertices, and may hold anything before.
#[inline(never)]
pub(crate) fn pairs_twins(
    lists: &Rotations,
    tails: &mut [u16],
    twins: &mut [u32],
    cells: &mut [u32],
) -> bool
    requires some_list { 0 < length lists.now }
    requires few_lists { length lists.now ≤ 158 }
    requires some_dart { 0 < length (joined lists.now) }
    requires few { length (joined lists.now) < 16777216 }
    requires tails { length tails.old ≡ length (joined lists.now) }
    requires twins { length twins.old ≡ length (joined lists.now) }
    requires cells { length lists.now * length lists.now ≤ length cells.old }
    ensures { OnTrue result (AreSlots lists.now tails.new twins.new) }
{
    lists.facts();
    let entries = lists.entries();
    let ends = lists.ends();
    if !are_below(entries, ends.len()) {
        return false;
    }
    write_tails(ends, tails);
    fill_cells(entries, tails, ends.len(), cells);
    take_twins(entries, tails, ends.len(), cells, twins)
}
