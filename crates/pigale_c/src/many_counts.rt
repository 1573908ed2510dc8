//! The call for C that counts many maps, one behind another in the arrays, each as `pigale_count` does.
ghost use Rattle.std.specs.Prelude.{◌≡◌, ◌≤◌, ◌↔◌, length, IsTrue};
ghost use Rattle.pigale_c.specs.ManyAnswers.{AreCountedMany, AreCountedTo, HaveCounts};

use crate::counts::{Counts, put_counts};
use crate::many_maps::{ManyMaps, status_of};
use crate::map_arrays::MapArrays;
use crate::outcome::{Numbers, report};
use euler_faces::Counter;
use std::alloc::Global;

// Counts each of `maps` into `counts`, with its status and numbers in `statuses` and `found`. Returns how many are
// answered: all, or those before the first for whose ends memory was wanting.
fn count_each(
    maps: &ManyMaps<'_>,
    counts: &mut [Counts],
    statuses: &mut [u8],
    found: &mut [Numbers],
) -> usize
    requires { HaveCounts maps.now.map_ends.now maps.now.ends.now maps.now.neighbours.now counts.old statuses.old found.old }
    ensures few { result ≤ length statuses.old }
    ensures answered { AreCountedTo maps.now.map_ends.now maps.now.ends.now maps.now.neighbours.now counts.old counts.new statuses.old statuses.new found.old found.new result }
{
    let mut counter = Counter::new(maps.alloc);
    let count = maps.map_ends.len();
    for i in 0..count {
        let Ok(own) = maps.own_ends(i) else {
            return i;
        };
        let given = MapArrays {
            alloc: maps.alloc,
            ends: &own,
            neighbours: maps.own_entries(i),
        };
        let call = put_counts(&mut counter, &given, &mut counts[i]);
        statuses[i] = report(call, &mut found[i]);
    }
    count
}

// Says whether `maps` are maps with an entry of `counts`, `statuses` and `found` for each of them.
fn have_counts(maps: &ManyMaps<'_>, counts: &[Counts], statuses: &[u8], found: &[Numbers]) -> bool
    ensures { IsTrue result ↔ HaveCounts maps.now.map_ends.now maps.now.ends.now maps.now.neighbours.now counts.now statuses.now found.now }
{
    counts.len() == maps.map_ends.len() && maps.have_answers(statuses, found) && maps.are_given()
}

/// Counts maps as `pigale_count` does: map i has the lists from number `map_ends[i - 1]` to `map_ends[i]`, and `ends` go
/// on from map to map. Writes the counts of each map to `counts`, its status to `statuses`, and what it names to `found`.
#[unsafe(no_mangle)]
pub extern "C" fn pigale_count_many(
    alloc: Global,
    map_ends: &[usize],
    ends: &[usize],
    neighbours: &[u16],
    counts: &mut [Counts],
    statuses: &mut [u8],
    found: &mut [Numbers],
) -> u8
    ensures { AreCountedMany map_ends.now ends.now neighbours.now counts.old counts.new statuses.old statuses.new found.old found.new result }
{
    let maps = ManyMaps {
        alloc,
        map_ends,
        ends,
        neighbours,
    };
    if !have_counts(&maps, counts, statuses, found) {
        return 17;
    }
    let count = count_each(&maps, counts, statuses, found);
    status_of(count, statuses.len())
}
