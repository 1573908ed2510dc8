//! The call for C that judges many straight-line drawings, one behind another in the arrays, each as `pigale_check` does.
ghost use Rattle.std.specs.Prelude.{◌≡◌, ◌≤◌, ◌<◌, ◌↔◌, pos, length, slice_index_or, IsTrue};
ghost use Rattle.pigale_c.specs.ManyAnswers.{AreJudgedMany, AreJudgedTo, HaveDrawings, drawings_in};

use crate::checks::judged;
use crate::many_maps::{ManyMaps, status_of};
use crate::map_arrays::MapArrays;
use crate::outcome::{Numbers, report};
use pg_plane::Point;
use std::alloc::Global;

// The arrays of drawings, as they are given: coordinates of all vertices, and the sizes of the grids.
#[derive(Clone, Copy)]
struct DrawingArrays<'a> {
    x: &'a [i32],
    y: &'a [i32],
    width: &'a [i32],
    height: &'a [i32],
}

impl DrawingArrays<'_> {
    // Returns the coordinate of the corner of the grid of drawing `i`.
    fn corner(&self, i: usize) -> Point
        requires width { i < length self.now.width.now }
        requires height { i < length self.now.height.now }
        ensures x { result.x ≡ slice_index_or self.now.width.now i (pos 0) }
        ensures y { result.y ≡ slice_index_or self.now.height.now i (pos 0) }
    {
        Point {
            x: self.width[i],
            y: self.height[i],
        }
    }

    // Says whether these are drawings of `maps`, with an entry of `statuses` and `found` for each of them.
    fn are_for(&self, maps: &ManyMaps<'_>, statuses: &[u8], found: &[Numbers]) -> bool
        ensures { IsTrue result ↔ HaveDrawings maps.now.map_ends.now maps.now.ends.now maps.now.neighbours.now (drawings_in self.now.x.now self.now.y.now self.now.width.now self.now.height.now) statuses.now found.now }
    {
        let (count, vertices) = (maps.map_ends.len(), maps.ends.len());
        self.x.len() == vertices
            && self.y.len() == vertices
            && self.width.len() == count
            && self.height.len() == count
            && maps.have_answers(statuses, found)
            && maps.are_given()
    }
}

// Judges the drawing of each of `maps` in `drawings`, with its status and numbers in `statuses` and `found`. Returns how
// many are answered: all, or those before the first for whose ends memory was wanting.
fn judge_each(
    maps: &ManyMaps<'_>,
    drawings: &DrawingArrays<'_>,
    statuses: &mut [u8],
    found: &mut [Numbers],
) -> usize
    requires { HaveDrawings maps.now.map_ends.now maps.now.ends.now maps.now.neighbours.now (drawings_in drawings.now.x.now drawings.now.y.now drawings.now.width.now drawings.now.height.now) statuses.old found.old }
    ensures few { result ≤ length statuses.old }
    ensures answered { AreJudgedTo maps.now.map_ends.now maps.now.ends.now maps.now.neighbours.now (drawings_in drawings.now.x.now drawings.now.y.now drawings.now.width.now drawings.now.height.now) statuses.old statuses.new found.old found.new result }
{
    let count = maps.map_ends.len();
    for i in 0..count {
        let Ok(own) = maps.own_ends(i) else {
            return i;
        };
        let given = MapArrays {
            alloc: maps.alloc,
            ends: &own,
            neighbours: maps.own_entries(i),
        };
        let lists = maps.lists_of(i);
        let (x, y) = (
            &drawings.x[lists.from..lists.to],
            &drawings.y[lists.from..lists.to],
        );
        statuses[i] = report(judged(&given, x, y, drawings.corner(i)), &mut found[i]);
    }
    count
}

/// Judges drawings of maps as `pigale_check` does: map i has the lists from number `map_ends[i - 1]` to `map_ends[i]`,
/// `ends` go on from map to map, list number v is of the vertex at (`x[v]`, `y[v]`), and map i has the grid up to
/// (`width[i]`, `height[i]`). Writes of each its status to `statuses`, and the vertices that it names to `found`.
#[unsafe(no_mangle)]
pub extern "C" fn pigale_check_many(
    alloc: Global,
    map_ends: &[usize],
    ends: &[usize],
    neighbours: &[u16],
    x: &[i32],
    y: &[i32],
    width: &[i32],
    height: &[i32],
    statuses: &mut [u8],
    found: &mut [Numbers],
) -> u8
    ensures { AreJudgedMany map_ends.now ends.now neighbours.now (drawings_in x.now y.now width.now height.now) statuses.old statuses.new found.old found.new result }
{
    let maps = ManyMaps {
        alloc,
        map_ends,
        ends,
        neighbours,
    };
    let drawings = DrawingArrays {
        x,
        y,
        width,
        height,
    };
    if !drawings.are_for(&maps, statuses, found) {
        return 17;
    }
    let count = judge_each(&maps, &drawings, statuses, found);
    status_of(count, statuses.len())
}
