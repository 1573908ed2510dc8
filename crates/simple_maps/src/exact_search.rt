//! The tails and twins of a simple map by a search of each list, after the exact search for the first fault.
ghost use Rattle.std.specs.Prelude.{◌≡◌, ◌<◌, [], length, OnOk, IfErr};
ghost use Rattle.map_theory.specs.Maps.{IsSimpleMap, HasDart, dart_number};
ghost use Rattle.simple_maps.specs.Faults.{first_fault};
ghost use Rattle.simple_maps.specs.MapFault.{Names};
ghost use Rattle.simple_maps.specs.Tables.{AreSlots};

use crate::MapFault;
use crate::fault_search::{first_loop, first_out_of_range, first_repeated};
use crate::one_sided::first_one_sided;
use map_lists::Rotations;
use std::alloc::{AllocError, Global};

// Returns the number of the dart from `v` to `u`: the index of its entry among those of all lists.
fn number_of(lists: &Rotations, v: u16, u: u16) -> u32
    requires simple { IsSimpleMap lists.now }
    requires dart { HasDart lists.now v u }
    ensures { result ≡ dart_number lists.now (v, u) }
{
    lists.facts();
    let list = lists.list(v as usize);
    let start = lists.ends()[v as usize] - list.len();
    for (k, w) in list.iter().enumerate() {
        if *w == u {
            return (start + k) as u32;
        }
    }
    unreachable!()
}

// Appends the slot of each dart of the map of `lists`: its tail to `tails`, and the number of its twin to `twins`. It
// fails only when out of memory.
fn push_slots(
    lists: &Rotations,
    tails: &mut Vec<u16>,
    twins: &mut Vec<u32>,
) -> Result<(), AllocError>
    requires simple { IsSimpleMap lists.now }
    requires tails { tails.old.items ≡ [] }
    requires twins { twins.old.items ≡ [] }
    ensures slots { OnOk result (AreSlots lists.now tails.new.items twins.new.items) }
    ensures count { OnOk result (length tails.new.items ≡ length twins.new.items) }
{
    for v in 0..lists.len() {
        for u in lists.list(v) {
            tails.push(v as u16)?;
            twins.push(number_of(lists, *u, v as u16))?;
        }
    }
    Ok(())
}

/// Makes `tails` and `twins` those of the darts of `lists`, which are from 1 to 4095, or returns their first fault.
pub(crate) fn searched_twins(
    alloc: Global,
    lists: &Rotations,
    tails: &mut Vec<u16>,
    twins: &mut Vec<u32>,
) -> Result<(), MapFault>
    requires some_list { 0 < length lists.now }
    ensures slots { OnOk result (AreSlots lists.now tails.new.items twins.new.items) }
    ensures count { OnOk result (length tails.new.items ≡ length twins.new.items) }
    ensures fault { IfErr result (Names (first_fault lists.now)) }
{
    *tails = Vec::new(alloc);
    *twins = Vec::new(alloc);
    if let Some((v, u)) = first_out_of_range(lists) {
        return Err(MapFault::OutOfRange(v, u));
    }
    if let Some(v) = first_loop(lists) {
        return Err(MapFault::Loop(v));
    }
    if let Some((v, u)) = first_repeated(alloc, lists)? {
        return Err(MapFault::Repeated(v, u));
    }
    if let Some((v, u)) = first_one_sided(alloc, lists)? {
        return Err(MapFault::OneSided(v, u));
    }
    push_slots(lists, tails, twins)?;
    Ok(())
}
