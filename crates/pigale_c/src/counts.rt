//! The call for C that counts vertices, edges, faces and components of a map, and its genus.
ghost use Rattle.pigale_c.specs.Counted.{IsCounted};
ghost use Rattle.pigale_c.specs.Numbers.{Reports, outcome_of};

use crate::map_arrays::{MapArrays, lists_of};
use crate::outcome::{Failure, Numbers, Outcome, report};
use euler_faces::Counter;
use std::alloc::Global;

/// The counts of a simple map.
#[repr(C)]
#[derive(Clone, Copy)]
pub struct Counts {
    /// The number of vertices.
    pub n: u32,
    /// The number of edges.
    pub m: u32,
    /// The number of faces.
    pub f: u32,
    /// The number of components.
    pub c: u32,
    /// The genus.
    pub genus: u32,
}

/// Writes the counts of the map `given`, which `counter` counts, to `counts`. Returns `Served`, or why there are none,
/// and then leaves `counts` as it was.
pub(crate) fn put_counts(
    counter: &mut Counter,
    given: &MapArrays<'_>,
    counts: &mut Counts,
) -> Result<Outcome, Failure>
    ensures { IsCounted given.now.ends.now given.now.neighbours.now counts.old counts.new (outcome_of result) }
{
    let lists = lists_of(given.alloc, given.ends, given.neighbours)?;
    let count = counter.count(&lists)?;
    *counts = Counts {
        n: count.n,
        m: count.m,
        f: count.f,
        c: count.c,
        genus: count.genus(),
    };
    Ok(Outcome::Served)
}

/// Counts the vertices, edges, faces and components of a map (`neighbours` cut into lists at `ends`), and its genus,
/// into `counts`. Returns a status, and writes the vertices or count that it names to `found`.
#[unsafe(no_mangle)]
pub extern "C" fn pigale_count(
    alloc: Global,
    ends: &[usize],
    neighbours: &[u16],
    counts: &mut Counts,
    found: &mut Numbers,
) -> u8
    ensures { Reports (IsCounted ends.now neighbours.now counts.old counts.new) result found.new }
{
    let given = MapArrays {
        alloc,
        ends,
        neighbours,
    };
    report(put_counts(&mut Counter::new(alloc), &given, counts), found)
}
