//! The call for C that orders the vertices of a map canonically.
ghost use Rattle.pigale_c.specs.Ordered.{IsOrderWritten};
ghost use Rattle.pigale_c.specs.Numbers.{Reports, outcome_of};

use crate::map_arrays::{MapArrays, lists_of, put_front, put_lists};
use crate::outcome::{Failure, Numbers, Outcome, report};
use crate::witness_paths::numbers_of_vertices;
use grid_figures::drawing_orders::drawing_order;
use std::alloc::Global;

// Writes a canonical order of the completion of the map `given` to `order`, and the arrays of the completion to
// `full_ends` and `full`. Returns `Served`, or why not, and then leaves all as they were.
fn ordered(
    given: &MapArrays<'_>,
    order: &mut [u16],
    full_ends: &mut [usize],
    full: &mut [u16],
) -> Result<Outcome, Failure>
    ensures { IsOrderWritten given.now.ends.now given.now.neighbours.now order.old full_ends.old full.old order.new full_ends.new full.new (outcome_of result) }
{
    let lists = lists_of(given.alloc, given.ends, given.neighbours)?;
    if order.len() != lists.len() {
        return Err(Failure::BadArgument);
    }
    let made = drawing_order(given.alloc, &lists)?;
    let vertices = numbers_of_vertices(given.alloc, made.order.at.as_slice())?;
    let tri = made.tri.rotations(given.alloc)?;
    if !put_lists(tri.ends(), tri.entries(), full_ends, full) {
        return Err(Failure::BadArgument);
    }
    put_front(&vertices, order);
    Ok(Outcome::Served)
}

/// Writes a canonical order of a map (`neighbours` cut into lists at `ends`), completed to a triangulation, to `order`,
/// and the arrays of the completion to `full_ends` and `full`. Returns a status, and writes what it names to `found`.
#[unsafe(no_mangle)]
pub extern "C" fn pigale_canonical_order(
    alloc: Global,
    ends: &[usize],
    neighbours: &[u16],
    order: &mut [u16],
    full_ends: &mut [usize],
    full: &mut [u16],
    found: &mut Numbers,
) -> u8
    ensures { Reports (IsOrderWritten ends.now neighbours.now order.old full_ends.old full.old order.new full_ends.new full.new) result found.new }
{
    let given = MapArrays {
        alloc,
        ends,
        neighbours,
    };
    report(ordered(&given, order, full_ends, full), found)
}
