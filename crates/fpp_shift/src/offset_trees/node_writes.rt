//! Writes to one field of a node in a tree of offsets: its offset, or its right link.
ghost use Rattle.std.specs.Prelude.{◌≡◌, ◌<◌, ◌+◌, length, option_map};
ghost use Rattle.fpp_shift.specs.Writes.{SetsX, SetsRight};

use crate::offset_trees::Offsets;
use map_lists::VertexId;
use pg_io::Steps;
use std::sync::ledger::Ledger;

// Sets the offset of vertex `u` in `tree` to `x`, and adds two to `steps`.
pub(crate) fn set_x<L: Ledger>(tree: &mut Offsets<L>, u: u16, x: i32, steps: &mut Steps<L>)
    requires { u < length tree.old }
    ensures set { SetsX tree.old tree.new u x }
    ensures steps { steps.new ≡ steps.old + 2 }
{
    let mut node = tree.get(VertexId(u), steps);
    node.x = x;
    tree.put(VertexId(u), node, steps);
}

// Sets the right link of vertex `u` in `tree` to `link`, and adds two to `steps`.
pub(crate) fn set_right<L: Ledger>(
    tree: &mut Offsets<L>,
    u: u16,
    link: Option<VertexId>,
    steps: &mut Steps<L>,
)
    requires { u < length tree.old }
    ensures set { SetsRight tree.old tree.new u (option_map (λ v. v.0) link) }
    ensures steps { steps.new ≡ steps.old + 2 }
{
    let mut node = tree.get(VertexId(u), steps);
    node.right = link;
    tree.put(VertexId(u), node, steps);
}
