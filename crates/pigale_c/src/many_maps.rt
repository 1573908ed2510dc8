//! Calls for C that draw many maps, one behind another in the arrays, each as the call for one map does.
ghost use Rattle.std.specs.Prelude.{◌≡◌, ◌≤◌, ◌<◌, ◌↔◌, suc, length, slice_range, IsTrue, IfOk};
ghost use Rattle.pigale_c.specs.Drawn.{IsShiftDrawn, IsSchnyderDrawn, IsConvexDrawn};
ghost use Rattle.pigale_c.specs.ManyMaps.{AreGivenMaps, AreDrawnMany, AreDrawnTo, HaveAnswers, HaveRoom, IsChangedWithin, begin_of, ends_of_map, entries_of_map, entry_of_map};
ghost use Rattle.pigale_c.specs.Numbers.{outcome_of};

use crate::grids::{ConvexGrids, GridDrawer, SchnyderGrids, ShiftGrids};
use crate::map_arrays::{MapArrays, are_cuts};
use crate::outcome::{Failure, Numbers, Outcome, report};
use std::alloc::{AllocError, Global};

/// The arrays of maps, as they are given: where each ends among all lists, where each list ends, and the neighbours.
#[derive(Clone, Copy)]
pub(crate) struct ManyMaps<'a> {
    pub(crate) alloc: Global,
    pub(crate) map_ends: &'a [usize],
    pub(crate) ends: &'a [usize],
    pub(crate) neighbours: &'a [u16],
}

/// A part of a row: where it begins, and where it ends.
#[derive(Clone, Copy)]
pub(crate) struct Part {
    pub(crate) from: usize,
    pub(crate) to: usize,
}

/// Returns number `i` of `ends`, or 0 for the one before the first: where what comes behind it begins.
pub(crate) fn begin(ends: &[usize], i: usize) -> usize
    requires { i ≤ length ends.now }
    ensures { result ≡ begin_of ends.now i }
{
    if i == 0 { 0 } else { ends[i - 1] }
}

/// Returns where number `i` begins and ends in a row that is cut at `ends`.
pub(crate) fn part_at(ends: &[usize], i: usize) -> Part
    requires { i < length ends.now }
    ensures from { result.from ≡ begin_of ends.now i }
    ensures to { result.to ≡ begin_of ends.now (suc i) }
{
    Part {
        from: begin(ends, i),
        to: ends[i],
    }
}

// Returns the entries of `entries` from number `start` to `end`.
fn entries_between(entries: &[u16], start: usize, end: usize) -> &[u16]
    requires order { start ≤ end }
    requires within { end ≤ length entries.now }
    ensures { result.now ≡ slice_range entries.now start end }
{
    &entries[start..end]
}

impl ManyMaps<'_> {
    /// Says whether the maps cut up all lists, and these all neighbours.
    pub(crate) fn are_given(&self) -> bool
        ensures { IsTrue result ↔ AreGivenMaps self.now.map_ends.now self.now.ends.now self.now.neighbours.now }
    {
        are_cuts(self.map_ends, self.ends.len()) && are_cuts(self.ends, self.neighbours.len())
    }

    /// Returns where the lists of map `i` begin and end.
    pub(crate) fn lists_of(&self, i: usize) -> Part
        requires given { AreGivenMaps self.now.map_ends.now self.now.ends.now self.now.neighbours.now }
        requires inside { i < length self.now.map_ends.now }
        ensures from { result.from ≡ begin_of self.now.map_ends.now i }
        ensures to { result.to ≡ begin_of self.now.map_ends.now (suc i) }
        ensures order { result.from ≤ result.to }
        ensures within { result.to ≤ length self.now.ends.now }
    {
        part_at(self.map_ends, i)
    }

    /// Returns where the neighbours of map `i` begin and end.
    pub(crate) fn entries_of(&self, i: usize) -> Part
        requires given { AreGivenMaps self.now.map_ends.now self.now.ends.now self.now.neighbours.now }
        requires inside { i < length self.now.map_ends.now }
        ensures from { result.from ≡ entry_of_map self.now.map_ends.now self.now.ends.now i }
        ensures to { result.to ≡ entry_of_map self.now.map_ends.now self.now.ends.now (suc i) }
        ensures order { result.from ≤ result.to }
        ensures within { result.to ≤ length self.now.neighbours.now }
    {
        let lists = self.lists_of(i);
        Part {
            from: begin(self.ends, lists.from),
            to: begin(self.ends, lists.to),
        }
    }

    /// Returns the ends of the lists of map `i` among its own neighbours.
    pub(crate) fn own_ends(&self, i: usize) -> Result<Vec<usize>, AllocError>
        requires given { AreGivenMaps self.now.map_ends.now self.now.ends.now self.now.neighbours.now }
        requires inside { i < length self.now.map_ends.now }
        ensures { IfOk result (λ own. own.items ≡ ends_of_map self.now.map_ends.now self.now.ends.now i) }
    {
        let lists = self.lists_of(i);
        let base = begin(self.ends, lists.from);
        let mut own = Vec::with_capacity(self.alloc, lists.to - lists.from)?;
        for end in &self.ends[lists.from..lists.to] {
            own.push(*end - base)?;
        }
        Ok(own)
    }

    /// Returns the neighbours in the lists of map `i`.
    pub(crate) fn own_entries(&self, i: usize) -> &[u16]
        requires given { AreGivenMaps self.now.map_ends.now self.now.ends.now self.now.neighbours.now }
        requires inside { i < length self.now.map_ends.now }
        ensures { result.now ≡ entries_of_map self.now.map_ends.now self.now.ends.now self.now.neighbours.now i }
    {
        let part = self.entries_of(i);
        entries_between(self.neighbours, part.from, part.to)
    }

    /// Says whether `statuses` and `found` have an entry for each map.
    pub(crate) fn have_answers(&self, statuses: &[u8], found: &[Numbers]) -> bool
        ensures { IsTrue result ↔ HaveAnswers self.now.map_ends.now statuses.now found.now }
    {
        statuses.len() == self.map_ends.len() && found.len() == self.map_ends.len()
    }
}

/// Returns the status of a call on `count` maps of which `answered` have their answers: 0, or 16 where memory was wanting
/// for more.
pub(crate) fn status_of(answered: usize, count: usize) -> u8
    ensures all { answered ≡ count → result ≡ 0 }
    ensures fewer { answered < count → result ≡ 16 }
{
    if answered < count { 16 } else { 0 }
}

// Draws the map `given`, of which the places in `x` and `y` are those of `part`, by `drawer`. Returns what `drawer` does,
// and leaves all other places as they were.
fn draw_part<D: GridDrawer>(
    drawer: &mut D,
    given: &MapArrays<'_>,
    x: &mut [i32],
    y: &mut [i32],
    part: Part,
) -> Result<Outcome, Failure>
    requires order { part.from ≤ part.to }
    requires x { part.to ≤ length x.old }
    requires y { part.to ≤ length y.old }
    ensures draws { D.draws given.now.ends.now given.now.neighbours.now (slice_range x.old part.from part.to) (slice_range y.old part.from part.to) (slice_range x.new part.from part.to) (slice_range y.new part.from part.to) (outcome_of result) }
    ensures x { IsChangedWithin part.from part.to x.old x.new }
    ensures y { IsChangedWithin part.from part.to y.old y.new }
{
    drawer.draw(
        given,
        &mut x[part.from..part.to],
        &mut y[part.from..part.to],
    )
}

// Draws each of `maps` by `drawer`, with its points in `x` and `y`, and its status and numbers in `statuses` and
// `found`. Returns how many are answered: all, or those before the first for whose ends memory was wanting.
fn draw_each<D: GridDrawer>(
    drawer: &mut D,
    maps: &ManyMaps<'_>,
    x: &mut [i32],
    y: &mut [i32],
    statuses: &mut [u8],
    found: &mut [Numbers],
) -> usize
    requires { HaveRoom maps.now.map_ends.now maps.now.ends.now maps.now.neighbours.now x.old y.old statuses.old found.old }
    ensures few { result ≤ length statuses.old }
    ensures answered { AreDrawnTo D.draws maps.now.map_ends.now maps.now.ends.now maps.now.neighbours.now x.old y.old x.new y.new statuses.old statuses.new found.old found.new result }
{
    let count = maps.map_ends.len();
    for i in 0..count {
        let Ok(own) = maps.own_ends(i) else {
            return i;
        };
        let given = MapArrays {
            alloc: maps.alloc,
            ends: &own,
            neighbours: maps.own_entries(i),
        };
        let call = draw_part(drawer, &given, x, y, maps.lists_of(i));
        statuses[i] = report(call, &mut found[i]);
    }
    count
}

// Says whether `maps` are maps with an entry of `x` and `y` for each list, and of `statuses` and `found` for each map.
fn have_room(maps: &ManyMaps<'_>, x: &[i32], y: &[i32], statuses: &[u8], found: &[Numbers]) -> bool
    ensures { IsTrue result ↔ HaveRoom maps.now.map_ends.now maps.now.ends.now maps.now.neighbours.now x.now y.now statuses.now found.now }
{
    let vertices = maps.ends.len();
    x.len() == vertices
        && y.len() == vertices
        && maps.have_answers(statuses, found)
        && maps.are_given()
}

// Draws each of `maps` by `drawer`. Returns the status of the whole: 0, or 17 where the arrays do not fit together, and
// then nothing is written, or 16 where memory was wanting for the ends of a map.
fn answered<D: GridDrawer>(
    drawer: &mut D,
    maps: &ManyMaps<'_>,
    x: &mut [i32],
    y: &mut [i32],
    statuses: &mut [u8],
    found: &mut [Numbers],
) -> u8
    ensures { AreDrawnMany D.draws maps.now.map_ends.now maps.now.ends.now maps.now.neighbours.now x.old y.old statuses.old found.old x.new y.new statuses.new found.new result }
{
    if !have_room(maps, x, y, statuses, found) {
        return 17;
    }
    let count = draw_each(drawer, maps, x, y, statuses, found);
    status_of(count, statuses.len())
}
/// Draws maps as `pigale_shift` does: map i has the lists from number `map_ends[i - 1]` to `map_ends[i]`, and `ends` go
/// on from map to map. Writes the points of all to `x` and `y`, and of each map its status and what it names.
#[unsafe(no_mangle)]
pub extern "C" fn pigale_shift_many(
    alloc: Global,
    map_ends: &[usize],
    ends: &[usize],
    neighbours: &[u16],
    x: &mut [i32],
    y: &mut [i32],
    statuses: &mut [u8],
    found: &mut [Numbers],
) -> u8
    ensures { AreDrawnMany IsShiftDrawn map_ends.now ends.now neighbours.now x.old y.old statuses.old found.old x.new y.new statuses.new found.new result }
{
    let maps = ManyMaps {
        alloc,
        map_ends,
        ends,
        neighbours,
    };
    answered(&mut ShiftGrids::new(alloc), &maps, x, y, statuses, found)
}

/// Draws maps as `pigale_schnyder` does, in arrays like those of `pigale_shift_many`.
#[unsafe(no_mangle)]
pub extern "C" fn pigale_schnyder_many(
    alloc: Global,
    map_ends: &[usize],
    ends: &[usize],
    neighbours: &[u16],
    x: &mut [i32],
    y: &mut [i32],
    statuses: &mut [u8],
    found: &mut [Numbers],
) -> u8
    ensures { AreDrawnMany IsSchnyderDrawn map_ends.now ends.now neighbours.now x.old y.old statuses.old found.old x.new y.new statuses.new found.new result }
{
    let maps = ManyMaps {
        alloc,
        map_ends,
        ends,
        neighbours,
    };
    answered(&mut SchnyderGrids::new(alloc), &maps, x, y, statuses, found)
}

/// Draws maps as `pigale_convex` does, in arrays like those of `pigale_shift_many`.
#[unsafe(no_mangle)]
pub extern "C" fn pigale_convex_many(
    alloc: Global,
    map_ends: &[usize],
    ends: &[usize],
    neighbours: &[u16],
    x: &mut [i32],
    y: &mut [i32],
    statuses: &mut [u8],
    found: &mut [Numbers],
) -> u8
    ensures { AreDrawnMany IsConvexDrawn map_ends.now ends.now neighbours.now x.old y.old statuses.old found.old x.new y.new statuses.new found.new result }
{
    let maps = ManyMaps {
        alloc,
        map_ends,
        ends,
        neighbours,
    };
    answered(&mut ConvexGrids::new(alloc), &maps, x, y, statuses, found)
}
