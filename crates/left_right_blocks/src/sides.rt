//! Sides of all edges by ties.
ghost use Rattle.std.specs.Prelude.{◌≡◌, ◌<◌, ◌-◌, Bool, false, cond, not, length, slice_index_or, IfOk};
ghost use Rattle.left_right_blocks.specs.Ties.{AreKept, AreInTurn, AreBelow};

use crate::ties::Tie;
use std::alloc::{AllocError, Global};

// Returns the entry of `sides` for the edge `x`, or false past its end.
fn side_of(sides: &[bool], x: u16) -> bool
    ensures { result ≡ slice_index_or sides.now x false }
{
    let x = usize::from(x);
    if x < sides.len() { sides[x] } else { false }
}

// Returns `side`, or the other side if `turn` is set.
fn turned(turn: bool, side: bool) -> bool
    ensures { result ≡ cond turn (not side) side }
{
    if turn { !side } else { side }
}

// Puts the edges of `ties`, from the last to the first, on the sides in `sides` that the ties demand.
fn keep_all(sides: &mut [bool], ties: &[Tie])
    ensures { AreInTurn ties.now → AreBelow (length sides.old) ties.now → AreKept (λ x. slice_index_or sides.new x false) ties.now }
{
    for i in 0..ties.len() {
        let tie = ties[ties.len() - 1 - i];
        let side = turned(tie.turn, side_of(sides, tie.to));
        let edge = usize::from(tie.edge);
        if edge >= sides.len() {
            continue;
        }
        sides[edge] = side;
    }
}

/// Returns for each of the first `edges` edges whether it is on the left, so that `ties` are kept, where the edge of each
/// is not in a later one. It fails only when out of memory.
pub(crate) fn tied_sides(alloc: Global, ties: &[Tie], edges: u16) -> Result<Vec<bool>, AllocError>
    ensures { AreInTurn ties.now → AreBelow edges ties.now → IfOk result (λ sides. AreKept (λ x. slice_index_or sides.items x false) ties.now) }
{
    let mut sides = vec![in alloc; true; usize::from(edges)]?;
    keep_all(&mut sides, ties);
    Ok(sides)
}
