//! The call for C that finds a Schnyder wood of a map.
ghost use Rattle.std.specs.Prelude.{◌≡◌, ◌<◌, length};
ghost use Rattle.pigale_c.specs.Wooded.{IsWoodWritten, IsParentOr, AreParents};
ghost use Rattle.pigale_c.specs.Numbers.{Reports, outcome_of};
ghost use Rattle.schnyder_wood.specs.Parents.{count_in, kind};

use crate::map_arrays::{MapArrays, lists_of};
use crate::outcome::{Failure, Numbers, Outcome, report};
use grid_figures::drawing_orders::drawing_order;
use map_lists::VertexId;
use schnyder_wood::{Colour, Wood, wood};
use std::alloc::Global;

// Returns the number of the parent of vertex `v` in `colour`, or `v` itself, if it is a root.
fn parent_of(wood: &Wood, colour: Colour, v: u16) -> u16
    requires { v < count_in wood.now }
    ensures { IsParentOr wood.now (kind colour) v result }
{
    match wood.parent(colour, VertexId(v)) {
        Some(parent) => parent.0,
        None => v,
    }
}

// Writes the parent of each vertex in `colour` to `parents`, and to that of a root itself.
fn put_parents(wood: &Wood, colour: Colour, parents: &mut [u16])
    requires few { length parents.old < 4096 }
    requires count { length parents.old ≡ count_in wood.now }
    ensures { AreParents wood.now (kind colour) parents.new }
{
    for v in 0..parents.len() {
        parents[v] = parent_of(wood, colour, v as u16);
    }
}

// Writes the parents of the completion of the map `given` to `parents`. Returns `Served`, or why not, and then leaves
// all as they were.
fn rooted(
    given: &MapArrays<'_>,
    one: &mut [u16],
    two: &mut [u16],
    three: &mut [u16],
) -> Result<Outcome, Failure>
    ensures { IsWoodWritten given.now.ends.now given.now.neighbours.now one.old two.old three.old one.new two.new three.new (outcome_of result) }
{
    let lists = lists_of(given.alloc, given.ends, given.neighbours)?;
    let n = lists.len();
    if one.len() != n || two.len() != n || three.len() != n {
        return Err(Failure::BadArgument);
    }
    let made = drawing_order(given.alloc, &lists)?;
    let found = wood(given.alloc, &made.tri, &made.order)?;
    put_parents(&found, Colour::One, one);
    put_parents(&found, Colour::Two, two);
    put_parents(&found, Colour::Three, three);
    Ok(Outcome::Served)
}

/// Writes the parents of a Schnyder wood of a map (`neighbours` cut into lists at `ends`), completed to a triangulation:
/// of each vertex its parent in the colours one, two and three, and of a root itself. Returns a status, and writes what
/// it names to `found`.
#[unsafe(no_mangle)]
pub extern "C" fn pigale_schnyder_wood(
    alloc: Global,
    ends: &[usize],
    neighbours: &[u16],
    one: &mut [u16],
    two: &mut [u16],
    three: &mut [u16],
    found: &mut Numbers,
) -> u8
    ensures { Reports (IsWoodWritten ends.now neighbours.now one.old two.old three.old one.new two.new three.new) result found.new }
{
    let given = MapArrays {
        alloc,
        ends,
        neighbours,
    };
    report(rooted(&given, one, two, three), found)
}
