//! Witnesses that graphs are not planar, written into the caller's arrays.
ghost use Rattle.std.specs.Prelude.{◌≡◌, map, IfOk};
ghost use Rattle.pigale_c.specs.Embedded.{number, IsWitnessPut};
ghost use Rattle.pigale_c.specs.Numbers.{outcome_of};

use crate::map_arrays::put_lists;
use crate::outcome::{Failure, Outcome};
use kuratowski::Witness;
use map_lists::VertexId;
use std::alloc::{AllocError, Global};

/// Copies the numbers of `vertices`. It fails only when out of memory.
pub(crate) fn numbers_of_vertices(
    alloc: Global,
    vertices: &[VertexId],
) -> Result<Vec<u16>, AllocError>
    ensures { IfOk result (λ numbers. numbers.items ≡ map number vertices.now) }
{
    let mut numbers = Vec::with_capacity(alloc, vertices.len())?;
    for v in vertices {
        numbers.push(v.0)?;
    }
    Ok(numbers)
}

/// Writes where the paths of `witness` end to the front of `ends`, and their vertices to that of `vertices`. Returns
/// `NotPlanar` with its kind. Fails with `BadArgument` where one of the arrays is too short, and when out of memory, and
/// then leaves both as they were.
pub(crate) fn put_witness(
    alloc: Global,
    witness: &Witness,
    ends: &mut [usize],
    vertices: &mut [u16],
) -> Result<Outcome, Failure>
    ensures { IsWitnessPut witness.now.kind witness.now.paths ends.old vertices.old ends.new vertices.new (outcome_of result) }
{
    let numbers = numbers_of_vertices(alloc, witness.paths.entries())?;
    if !put_lists(witness.paths.ends(), &numbers, ends, vertices) {
        return Err(Failure::BadArgument);
    }
    Ok(Outcome::NotPlanar(witness.kind))
}
