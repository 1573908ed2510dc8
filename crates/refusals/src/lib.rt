//! Why a record is refused: the conditions of all jobs, in one order. An answer names the first that is broken.
#![tactic(auto)]

ghost use Rattle.refusals.specs.Laws.{NoRefusalIsPlane};

mod conditions;

pub use conditions::{Refusal, Unserved};

/// States the law that one list or more break none of the first six conditions exactly where they are a simple map of
/// genus zero with enough vertices.
pub fn no_refusal_is_plane()
    ensures { NoRefusalIsPlane }
{
    simple_maps::no_fault_is_simple();
    map_theory::euler_bound::euler_bound();
}
