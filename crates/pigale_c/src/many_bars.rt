//! The call for C that draws many maps by bars, one behind another in the arrays, each as `pigale_bars` does.
ghost use Rattle.std.specs.Prelude.{◌≡◌, ◌≤◌, ◌/◌, ◌+◌, ◌-◌, ◌<◌, ◌↔◌, suc, length, slice_range, IsTrue};
ghost use Rattle.pigale_c.specs.BarArrays.{AreDrawnBars, bars_in};
ghost use Rattle.pigale_c.specs.ManyFigures.{AreBarsMany, AreBarsTo, HaveBars, column_of_map, column_end_of_map};
ghost use Rattle.pigale_c.specs.ManyMaps.{AreGivenMaps, IsChangedWithin};
ghost use Rattle.pigale_c.specs.Numbers.{outcome_of};

use crate::bars::put_bars;
use crate::many_maps::{ManyMaps, Part, status_of};
use crate::map_arrays::MapArrays;
use crate::outcome::{Failure, Numbers, Outcome, report};
use std::alloc::Global;
use visibility::bar_figures::BarDrawer;

// Where the bars and the columns of a map begin and end.
#[derive(Clone, Copy)]
struct BarParts {
    bars: Part,
    columns: Part,
}

// Returns where the columns of map `i` of `maps` begin and end: there are half as many as neighbours.
fn columns_of(maps: &ManyMaps<'_>, i: usize) -> Part
    requires given { AreGivenMaps maps.now.map_ends.now maps.now.ends.now maps.now.neighbours.now }
    requires inside { i < length maps.now.map_ends.now }
    ensures from { result.from ≡ column_of_map maps.now.map_ends.now maps.now.ends.now i }
    ensures to { result.to ≡ column_end_of_map maps.now.map_ends.now maps.now.ends.now i }
    ensures order { result.from ≤ result.to }
    ensures within { result.to ≤ length maps.now.neighbours.now / 2 }
{
    let entries = maps.entries_of(i);
    let from = entries.from / 2;
    let count = (entries.to - entries.from) / 2;
    Part {
        from,
        to: from + count,
    }
}

// Draws the map `given`, of which `parts` has the places in `y`, `x1`, `x2` and `column`. Returns what `put_bars` does,
// and leaves all other places as they were.
fn draw_part(
    drawer: &mut BarDrawer,
    given: &MapArrays<'_>,
    y: &mut [i32],
    x1: &mut [i32],
    x2: &mut [i32],
    column: &mut [i32],
    parts: BarParts,
) -> Result<Outcome, Failure>
    requires bars { parts.bars.from ≤ parts.bars.to }
    requires y { parts.bars.to ≤ length y.old }
    requires x1 { parts.bars.to ≤ length x1.old }
    requires x2 { parts.bars.to ≤ length x2.old }
    requires columns { parts.columns.from ≤ parts.columns.to }
    requires column { parts.columns.to ≤ length column.old }
    ensures draws { AreDrawnBars given.now.ends.now given.now.neighbours.now
        (bars_in (slice_range y.old parts.bars.from parts.bars.to) (slice_range x1.old parts.bars.from parts.bars.to) (slice_range x2.old parts.bars.from parts.bars.to) (slice_range column.old parts.columns.from parts.columns.to))
        (bars_in (slice_range y.new parts.bars.from parts.bars.to) (slice_range x1.new parts.bars.from parts.bars.to) (slice_range x2.new parts.bars.from parts.bars.to) (slice_range column.new parts.columns.from parts.columns.to)) (outcome_of result) }
    ensures y { IsChangedWithin parts.bars.from parts.bars.to y.old y.new }
    ensures x1 { IsChangedWithin parts.bars.from parts.bars.to x1.old x1.new }
    ensures x2 { IsChangedWithin parts.bars.from parts.bars.to x2.old x2.new }
    ensures column { IsChangedWithin parts.columns.from parts.columns.to column.old column.new }
{
    let Part { from, to } = parts.bars;
    let columns = parts.columns;
    put_bars(
        drawer,
        given,
        &mut y[from..to],
        &mut x1[from..to],
        &mut x2[from..to],
        &mut column[columns.from..columns.to],
    )
}

// Draws each of `maps` by bars, with its status and numbers in `statuses` and `found`. Returns how many are answered:
// all, or those before the first for whose ends memory was wanting.
fn draw_each(
    maps: &ManyMaps<'_>,
    y: &mut [i32],
    x1: &mut [i32],
    x2: &mut [i32],
    column: &mut [i32],
    statuses: &mut [u8],
    found: &mut [Numbers],
) -> usize
    requires { HaveBars maps.now.map_ends.now maps.now.ends.now maps.now.neighbours.now (bars_in y.old x1.old x2.old column.old) statuses.old found.old }
    ensures few { result ≤ length statuses.old }
    ensures answered { AreBarsTo maps.now.map_ends.now maps.now.ends.now maps.now.neighbours.now (bars_in y.old x1.old x2.old column.old) (bars_in y.new x1.new x2.new column.new) statuses.old statuses.new found.old found.new result }
{
    let mut drawer = BarDrawer::new(maps.alloc);
    let count = maps.map_ends.len();
    for i in 0..count {
        let Ok(own) = maps.own_ends(i) else {
            return i;
        };
        let given = MapArrays {
            alloc: maps.alloc,
            ends: &own,
            neighbours: maps.own_entries(i),
        };
        let parts = BarParts {
            bars: maps.lists_of(i),
            columns: columns_of(maps, i),
        };
        let call = draw_part(&mut drawer, &given, y, x1, x2, column, parts);
        statuses[i] = report(call, &mut found[i]);
    }
    count
}

// Says whether `maps` are maps with an entry of `y`, `x1` and `x2` for each list, one of `column` for each two neighbours,
// and an answer for each map.
fn have_bars(
    maps: &ManyMaps<'_>,
    y: &[i32],
    x1: &[i32],
    x2: &[i32],
    column: &[i32],
    statuses: &[u8],
    found: &[Numbers],
) -> bool
    ensures { IsTrue result ↔ HaveBars maps.now.map_ends.now maps.now.ends.now maps.now.neighbours.now (bars_in y.now x1.now x2.now column.now) statuses.now found.now }
{
    let vertices = maps.ends.len();
    y.len() == vertices
        && x1.len() == vertices
        && x2.len() == vertices
        && column.len() == maps.neighbours.len() / 2
        && maps.have_answers(statuses, found)
        && maps.are_given()
}

/// Draws maps by bars as `pigale_bars` does: map i has the lists from number `map_ends[i - 1]` to `map_ends[i]`, and
/// `ends` go on from map to map. Writes the bar of each vertex to `y`, `x1` and `x2`, the columns of each map to `column`,
/// from half of where its neighbours begin, and of each map its status and what it names.
#[unsafe(no_mangle)]
pub extern "C" fn pigale_bars_many(
    alloc: Global,
    map_ends: &[usize],
    ends: &[usize],
    neighbours: &[u16],
    y: &mut [i32],
    x1: &mut [i32],
    x2: &mut [i32],
    column: &mut [i32],
    statuses: &mut [u8],
    found: &mut [Numbers],
) -> u8
    ensures { AreBarsMany map_ends.now ends.now neighbours.now (bars_in y.old x1.old x2.old column.old) (bars_in y.new x1.new x2.new column.new) statuses.old statuses.new found.old found.new result }
{
    let maps = ManyMaps {
        alloc,
        map_ends,
        ends,
        neighbours,
    };
    if !have_bars(&maps, y, x1, x2, column, statuses, found) {
        return 17;
    }
    let count = draw_each(&maps, y, x1, x2, column, statuses, found);
    status_of(count, statuses.len())
}
