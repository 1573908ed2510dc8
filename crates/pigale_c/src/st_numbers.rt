//! The call for C that numbers the vertices of a map by an st-order.
ghost use Rattle.std.specs.Prelude.{◌≡◌, ◌<◌, length, All};
ghost use Rattle.pigale_c.specs.StNumbers.{IsStWritten};
ghost use Rattle.pigale_c.specs.Numbers.{Reports, outcome_of};

use crate::map_arrays::{MapArrays, lists_of};
use crate::outcome::{Failure, Numbers, Outcome, report};
use conn_parts::biconnected_maps::searched_map;
use st_orders::st_ranks;
use std::alloc::Global;

// Writes each of `numbers`, all below 4096, to the entry of `to` in its place.
fn put_numbers(numbers: &[u32], to: &mut [u16])
    requires count { length to.old ≡ length numbers.now }
    requires small { All (λ k. k < 4096) numbers.now }
    ensures { to.new ≡ numbers.now }
{
    for i in 0..numbers.len() {
        to[i] = numbers[i] as u16;
    }
}

// Writes the place of each vertex of the map `given` in an st-order to `rank`. Returns `Served`, or why not, and then
// leaves it as it was.
fn ranked(given: &MapArrays<'_>, rank: &mut [u16]) -> Result<Outcome, Failure>
    ensures { IsStWritten given.now.ends.now given.now.neighbours.now rank.old rank.new (outcome_of result) }
{
    let lists = lists_of(given.alloc, given.ends, given.neighbours)?;
    if rank.len() != lists.len() {
        return Err(Failure::BadArgument);
    }
    let found = searched_map(given.alloc, &lists, 3)?;
    let t = lists.list(0)[0];
    let ranks = st_ranks(given.alloc, &lists, &found.forest, &found.low, 0, t)?;
    put_numbers(ranks.as_slice(), rank);
    Ok(Outcome::Served)
}

/// Writes the place of each vertex of a biconnected map (`neighbours` cut into lists at `ends`) in an st-order to
/// `rank`: vertex 0 is first and the first of its list last. Returns a status, and writes what it names to `found`.
#[unsafe(no_mangle)]
pub extern "C" fn pigale_st_order(
    alloc: Global,
    ends: &[usize],
    neighbours: &[u16],
    rank: &mut [u16],
    found: &mut Numbers,
) -> u8
    ensures { Reports (IsStWritten ends.now neighbours.now rank.old rank.new) result found.new }
{
    let given = MapArrays {
        alloc,
        ends,
        neighbours,
    };
    report(ranked(&given, rank), found)
}
