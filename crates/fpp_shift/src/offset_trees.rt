//! Trees of offsets: a node for each vertex, with its horizontal offset from the node that leads to it. Each use of a
//! node is counted.

ghost use Rattle.fpp_shift.specs.OffsetTreesLaws.{TreeGrows, GrownIsOffsetTree};

mod node_writes;
mod summed_points;
mod tree_growth;
mod tree_nodes;

pub(crate) use summed_points::SumMemory;
pub use summed_points::sum_offsets;
pub use tree_growth::{begin_tree, put_over};
pub use tree_nodes::{Node, Offsets};

/// States the law that a step of a run (a construction sequence) grows its tree of offsets by at most five writes of
/// nodes. Once a step's nodes are written, the tree is that of the run with this step.
pub fn tree_grows()
    ensures { TreeGrows }
{}

/// States the law that where a run's last step covers all but the base, its tree is the tree of offsets of the run.
pub fn grown_is_offset_tree()
    ensures { GrownIsOffsetTree }
{}
