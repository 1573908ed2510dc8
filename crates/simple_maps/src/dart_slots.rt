//! The public calls `fill_twins` and `put_slots`: tails and twins of a simple map's darts, as tables or in slots.
ghost use Rattle.std.specs.Prelude.{◌≡◌, ◌<◌, ◌≤◌, ℕ, length, map, slice_index, OnOk, IfOk, IfErr};
ghost use Rattle.std.specs.Bool.{OnTrue};
ghost use Rattle.map_lists.specs.Cuts.{joined};
ghost use Rattle.simple_maps.specs.Faults.{first_fault};
ghost use Rattle.simple_maps.specs.MapFault.{Names};
ghost use Rattle.simple_maps.specs.Tables.{AreSlots};
ghost use Rattle.simple_maps.specs.Pass.{AreInLine};

use crate::MapFault;
use crate::dart_cells::{FEW, pairs_twins};
use crate::exact_search::searched_twins;
use crate::twin_pass::{DartSlot, NO_PLACE, finds_twins};
use map_lists::Rotations;
use std::alloc::{AllocError, Global};

// Says whether a list with at least as many entries as there are vertices is found, which no simple map has. The
// answer only saves time: it does not look at lists as short as those of a plane map.
fn has_long_list(lists: &Rotations) -> bool {
    let count = lists.len();
    if lists.total() <= 6 * count {
        return false;
    }
    let mut start = 0;
    for end in lists.ends() {
        if end.wrapping_sub(start) >= count {
            return true;
        }
        start = *end;
    }
    false
}

// Makes `threads` at least `count` entries long, and keeps the entries before. It fails only when out of memory.
fn grow(threads: &mut Vec<u32>, count: usize) -> Result<(), AllocError>
    ensures { OnOk result (count ≤ length threads.new.items) }
{
    if threads.len() < count {
        threads.resize(count, 0)?;
    }
    Ok(())
}

// Says whether one pass finds `lists` to be a simple map, and then writes the `tails` and `twins` of their darts. For
// at most 158 vertices with an edge it goes by a cell for each two, else by threads (chains of the darts with one
// head). `threads` is scratch space, which may grow. It fails only when out of memory.
#[inline(always)]
fn passes(
    lists: &Rotations,
    tails: &mut [u16],
    twins: &mut [u32],
    threads: &mut Vec<u32>,
) -> Result<bool, AllocError>
    requires some_list { 0 < length lists.now }
    requires few { length (joined lists.now) < 16777216 }
    requires tails { length tails.old ≡ length (joined lists.now) }
    requires twins { length twins.old ≡ length (joined lists.now) }
    ensures { IfOk result (λ found. OnTrue found (AreSlots lists.now tails.new twins.new)) }
{
    let n = lists.len();
    if n <= FEW && 0 < twins.len() {
        grow(threads, n * n)?;
        return Ok(pairs_twins(lists, tails, twins, threads));
    }
    grow(threads, n)?;
    Ok(finds_twins(lists, tails, twins, &mut threads[..n]))
}

/// Makes `tails` and `twins` those of the darts of `lists`, which are from 1 to 4095, or returns their first fault.
///
/// `threads` is scratch space. The vectors may hold anything before: a caller who has many maps keeps them to use their
/// memory again. The time is linear in the entries. A simple map takes no other memory than that of the three: six
/// bytes for each dart, and one number for each vertex, or for each two vertices where there are at most 158.
pub fn fill_twins(
    alloc: Global,
    lists: &Rotations,
    tails: &mut Vec<u16>,
    twins: &mut Vec<u32>,
    threads: &mut Vec<u32>,
) -> Result<(), MapFault>
    requires some_list { 0 < length lists.now }
    ensures slots { OnOk result (AreSlots lists.now tails.new.items twins.new.items) }
    ensures count { OnOk result (length tails.new.items ≡ length twins.new.items) }
    ensures fault { IfErr result (Names (first_fault lists.now)) }
{
    let count = lists.entries().len();
    if count < NO_PLACE as usize && !has_long_list(lists) {
        tails.resize(count, 0)?;
        twins.resize(count, 0)?;
        if passes(lists, tails, twins, threads)? {
            return Ok(());
        }
    }
    searched_twins(alloc, lists, tails, twins)
}

// Writes to `slots`, one for each dart, the slot made of its tail in `tails` and the number of its twin in `twins`.
fn write_slots<P: DartSlot>(tails: &[u16], twins: &[u32], slots: &mut [P])
    requires twins { length tails.now ≡ length twins.now }
    requires slots { length slots.old ≡ length twins.now }
    requires few { length twins.now < 16777216 }
    ensures line { AreInLine P.IsInLine slots.new (length slots.new) }
    ensures tails { (d : ℕ) → d < length twins.now → slice_index (map P.tail_of slots.new) d ≡ slice_index tails.now d }
    ensures twins { (d : ℕ) → d < length twins.now → slice_index (map P.twin_of slots.new) d ≡ slice_index twins.now d }
{
    for d in 0..twins.len() {
        slots[d] = P::new(tails[d], twins[d], d as u32);
    }
}

/// Makes `slots` those of the darts of `lists`, a simple map, from the `tails` and `twins` of its darts in list order.
///
/// The vector may hold anything before. The time is linear in the entries, and so is the memory.
pub fn put_slots<P: DartSlot>(
    lists: &Rotations,
    tails: &[u16],
    twins: &[u32],
    slots: &mut Vec<P>,
) -> Result<(), AllocError>
    requires known { AreSlots lists.now tails.now twins.now }
    requires count { length tails.now ≡ length twins.now }
    ensures slots { OnOk result (AreSlots lists.now (map P.tail_of slots.new.items) (map P.twin_of slots.new.items)) }
    ensures line { OnOk result (AreInLine P.IsInLine slots.new.items (length slots.new.items)) }
{
    lists.facts();
    slots.resize(twins.len(), P::new(0, 0, 0))?;
    write_slots(tails, twins, slots);
    Ok(())
}
