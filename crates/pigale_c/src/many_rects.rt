//! The call for C that draws many maps as rectangular duals, one behind another in the arrays, each as `pigale_rect` does.
ghost use Rattle.std.specs.Prelude.{◌≡◌, ◌≤◌, ◌<◌, ◌↔◌, length, slice_range, IsTrue};
ghost use Rattle.pigale_c.specs.RectArrays.{AreDrawnRects, rects_in};
ghost use Rattle.pigale_c.specs.ManyFigures.{AreRectsMany, AreRectsTo, HaveRects};
ghost use Rattle.pigale_c.specs.ManyMaps.{IsChangedWithin};
ghost use Rattle.pigale_c.specs.Numbers.{outcome_of};

use crate::many_maps::{ManyMaps, Part, status_of};
use crate::map_arrays::MapArrays;
use crate::outcome::{Failure, Numbers, Outcome, report};
use crate::rects::put_rects;
use rect_dual::figures::RectDrawer;
use std::alloc::Global;

// Draws the map `given`, of which the places in `x1`, `x2`, `y1` and `y2` are those of `part`. Returns what `put_rects`
// does, and leaves all other places as they were.
fn draw_part(
    drawer: &mut RectDrawer,
    given: &MapArrays<'_>,
    x1: &mut [i32],
    x2: &mut [i32],
    y1: &mut [i32],
    y2: &mut [i32],
    part: Part,
) -> Result<Outcome, Failure>
    requires order { part.from ≤ part.to }
    requires x1 { part.to ≤ length x1.old }
    requires x2 { part.to ≤ length x2.old }
    requires y1 { part.to ≤ length y1.old }
    requires y2 { part.to ≤ length y2.old }
    ensures draws { AreDrawnRects given.now.ends.now given.now.neighbours.now
        (rects_in (slice_range x1.old part.from part.to) (slice_range x2.old part.from part.to) (slice_range y1.old part.from part.to) (slice_range y2.old part.from part.to))
        (rects_in (slice_range x1.new part.from part.to) (slice_range x2.new part.from part.to) (slice_range y1.new part.from part.to) (slice_range y2.new part.from part.to)) (outcome_of result) }
    ensures x1 { IsChangedWithin part.from part.to x1.old x1.new }
    ensures x2 { IsChangedWithin part.from part.to x2.old x2.new }
    ensures y1 { IsChangedWithin part.from part.to y1.old y1.new }
    ensures y2 { IsChangedWithin part.from part.to y2.old y2.new }
{
    let Part { from, to } = part;
    put_rects(
        drawer,
        given,
        &mut x1[from..to],
        &mut x2[from..to],
        &mut y1[from..to],
        &mut y2[from..to],
    )
}

// Draws each of `maps` as a rectangular dual, with its status and numbers in `statuses` and `found`. Returns how many
// are answered: all, or those before the first for whose ends memory was wanting.
fn draw_each(
    maps: &ManyMaps<'_>,
    x1: &mut [i32],
    x2: &mut [i32],
    y1: &mut [i32],
    y2: &mut [i32],
    statuses: &mut [u8],
    found: &mut [Numbers],
) -> usize
    requires { HaveRects maps.now.map_ends.now maps.now.ends.now maps.now.neighbours.now (rects_in x1.old x2.old y1.old y2.old) statuses.old found.old }
    ensures few { result ≤ length statuses.old }
    ensures answered { AreRectsTo maps.now.map_ends.now maps.now.ends.now maps.now.neighbours.now (rects_in x1.old x2.old y1.old y2.old) (rects_in x1.new x2.new y1.new y2.new) statuses.old statuses.new found.old found.new result }
{
    let mut drawer = RectDrawer::new(maps.alloc);
    let count = maps.map_ends.len();
    for i in 0..count {
        let Ok(own) = maps.own_ends(i) else {
            return i;
        };
        let given = MapArrays {
            alloc: maps.alloc,
            ends: &own,
            neighbours: maps.own_entries(i),
        };
        let call = draw_part(&mut drawer, &given, x1, x2, y1, y2, maps.lists_of(i));
        statuses[i] = report(call, &mut found[i]);
    }
    count
}

// Says whether `maps` are maps with an entry of each of `x1` to `y2` for each list, and an answer for each map.
fn have_rects(
    maps: &ManyMaps<'_>,
    x1: &[i32],
    x2: &[i32],
    y1: &[i32],
    y2: &[i32],
    statuses: &[u8],
    found: &[Numbers],
) -> bool
    ensures { IsTrue result ↔ HaveRects maps.now.map_ends.now maps.now.ends.now maps.now.neighbours.now (rects_in x1.now x2.now y1.now y2.now) statuses.now found.now }
{
    let vertices = maps.ends.len();
    x1.len() == vertices
        && x2.len() == vertices
        && y1.len() == vertices
        && y2.len() == vertices
        && maps.have_answers(statuses, found)
        && maps.are_given()
}

/// Draws maps as `pigale_rect` does: map i has the lists from number `map_ends[i - 1]` to `map_ends[i]`, and `ends` go
/// on from map to map. Writes the rectangle of each vertex to `x1` to `y2`, and of each map its status and what it names.
#[unsafe(no_mangle)]
pub extern "C" fn pigale_rect_many(
    alloc: Global,
    map_ends: &[usize],
    ends: &[usize],
    neighbours: &[u16],
    x1: &mut [i32],
    x2: &mut [i32],
    y1: &mut [i32],
    y2: &mut [i32],
    statuses: &mut [u8],
    found: &mut [Numbers],
) -> u8
    ensures { AreRectsMany map_ends.now ends.now neighbours.now (rects_in x1.old x2.old y1.old y2.old) (rects_in x1.new x2.new y1.new y2.new) statuses.old statuses.new found.old found.new result }
{
    let maps = ManyMaps {
        alloc,
        map_ends,
        ends,
        neighbours,
    };
    if !have_rects(&maps, x1, x2, y1, y2, statuses, found) {
        return 17;
    }
    let count = draw_each(&maps, x1, x2, y1, y2, statuses, found);
    status_of(count, statuses.len())
}
