//! New half-edge maps made of a map: its copy, and the submap induced by some of its vertices.
ghost use Rattle.std.specs.Prelude.{◌≡◌, ◌+◌, ◌<◌, ◌≤◌, ◌++◌, ◌∷◌, [], ℕ, true, length, slice_index, IfOk, OnOk, All, Contains};
ghost use Rattle.map_theory.specs.Maps.{IsSimpleMap, vertex_count};
ghost use Rattle.half_edges.specs.Map.{IsHalfMap};
ghost use Rattle.half_edges.specs.Induced.{induced_list, induced_lists, kept_before};

use crate::{HalfMap, MapFault, Rotations};
use map_lists::ItemLists;
use std::alloc::{AllocError, Global};

impl HalfMap {
    /// Returns the map with these lists of a simple map, at most 4095. Its `spare` is 0. Fails only when out of memory.
    pub fn from_simple(alloc: Global, lists: &Rotations) -> Result<HalfMap, AllocError>
        requires simple { IsSimpleMap lists.now }
        ensures lists { IfOk result (λ map. map.lists ≡ lists.now) }
        ensures spare { IfOk result (λ map. map.spare ≡ 0) }
        ensures known { IfOk result IsHalfMap }
    {
        match HalfMap::from_rotations(alloc, lists) {
            Ok(map) => Ok(map),
            Err(fault) => match fault {
                MapFault::NoMemory => Err(AllocError),
                _ => unreachable!(),
            },
        }
    }

    /// Returns a map with the same lists. Its `spare` is 0, and its ids may be others. Fails only when out of memory.
    pub fn copy(&self, alloc: Global) -> Result<HalfMap, AllocError>
        ensures lists { IfOk result (λ map. map.lists ≡ self.now.lists) }
        ensures spare { IfOk result (λ map. map.spare ≡ 0) }
        ensures known { IfOk result IsHalfMap }
    {
        let lists = self.rotations(alloc)?;
        HalfMap::from_simple(alloc, &lists)
    }

    /// Returns the part of the map between the vertices whose flag in `keep` is set: they are numbered anew in rising
    /// order, and each list is restricted to them. `keep` has `n` flags, at least one of them set.
    ///
    /// Its `spare` is 0, and its ids may be others. It fails only when out of memory.
    pub fn induced(&self, alloc: Global, keep: &[bool]) -> Result<HalfMap, AllocError>
        requires flags { length keep.now ≡ vertex_count self.now.lists }
        requires some { Contains keep.now true }
        ensures lists { IfOk result (λ map. map.lists ≡ induced_lists keep.now self.now.lists) }
        ensures spare { IfOk result (λ map. map.spare ≡ 0) }
        ensures known { IfOk result IsHalfMap }
    {
        let lists = self.rotations(alloc)?;
        let part = induced_rotations(alloc, &lists, keep)?;
        HalfMap::from_simple(alloc, &part)
    }
}

// Returns for each vertex how many vertices before it are set in `keep`: its new number. Fails only when out of memory.
fn numbers_of(alloc: Global, keep: &[bool]) -> Result<Vec<u16>, AllocError>
    requires { length keep.now < 4096 }
    ensures count { IfOk result (λ numbers. length numbers.items ≡ length keep.now) }
    ensures at { IfOk result
        (λ numbers. (v : ℕ) → v < length keep.now → slice_index numbers.items v ≡ kept_before keep.now v) }
{
    let mut numbers = Vec::with_capacity(alloc, keep.len())?;
    let mut count = 0;
    for k in keep {
        numbers.push(count)?;
        count += *k as u16;
    }
    Ok(numbers)
}

// Returns the entries of `list` whose flag in `keep` is set, renumbered by `numbers`. Fails only when out of memory.
fn kept_entries(
    alloc: Global,
    numbers: &[u16],
    keep: &[bool],
    list: &[u16],
) -> Result<Vec<u16>, AllocError>
    requires count { length numbers.now ≡ length keep.now }
    requires at { (v : ℕ) → v < length keep.now → slice_index numbers.now v ≡ kept_before keep.now v }
    requires within { All (λ u. u < length keep.now) list.now }
    ensures { IfOk result (λ kept. kept.items ≡ induced_list keep.now list.now) }
{
    let mut kept = Vec::with_capacity(alloc, list.len())?;
    for u in list {
        if keep[*u as usize] {
            kept.push(numbers[*u as usize])?;
        }
    }
    Ok(kept)
}

// Returns the lists of the vertices set in `keep`, restricted to these and renumbered. Fails only when out of memory.
fn induced_rotations(
    alloc: Global,
    lists: &Rotations,
    keep: &[bool],
) -> Result<Rotations, AllocError>
    requires simple { IsSimpleMap lists.now }
    requires flags { length keep.now ≡ length lists.now }
    ensures { IfOk result (λ part. part ≡ induced_lists keep.now lists.now) }
{
    let count = lists.len();
    let numbers = numbers_of(alloc, keep)?;
    let mut part = ItemLists::new(alloc);
    for v in 0..count {
        if keep[v] {
            part.push(&kept_entries(alloc, &numbers, keep, lists.list(v))?)?;
        }
    }
    Ok(Rotations::from_lists(part))
}
