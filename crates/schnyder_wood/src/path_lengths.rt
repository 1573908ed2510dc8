//! Lengths of the paths of a Schnyder wood.
ghost use Rattle.std.specs.Prelude.{◌≡◌};
ghost use Rattle.schnyder_wood.specs.Parents.{kind, IsInnerIn, IsPathLength};

use crate::colour::Colour;
use crate::woods::Wood;
use map_lists::VertexId;

/// Returns how many vertices the path of `colour` in `wood` from the inner vertex `v` to the root has, both counted.
///
/// It takes no memory. The time is linear in that number.
pub fn path_len(wood: &Wood, v: VertexId, colour: Colour) -> u32
    requires inner { IsInnerIn wood.now v.0 }
    ensures { IsPathLength wood.now (kind colour) v.0 result }
{
    wood.facts();
    let root = wood.root(colour);
    let mut at = v;
    for passed in 0..wood.n() {
        at = wood.entry(colour, at);
        if at.0 == root.0 {
            return passed as u32 + 2;
        }
    }
    unreachable!()
}
