//! The check of visibility drawings, in which each vertex is a level bar and each edge a column between two
//! bars. It says whether heights, bars and columns are in their ranges, each column sees both its ends with no bar
//! in its way, and each vertex has its edges in the order of its list. Where not, it says which fault comes first.
#![tactic(auto)]

ghost use Rattle.bar_check.specs.Laws.{EdgeNumbers, OnceIsInOrder, OverlapIsNever, YesIsValid};

mod blocked_edges;
mod check;
mod column_table;
mod drawing;
mod edge_indices;
mod exact_sweep;
mod heights_and_bars;
mod list_rotation;
mod quick_sweep;
mod verdict;

pub use check::check_bars;
pub use verdict::BarVerdict;

/// States the law that a verdict is `Yes` exactly where the bars are valid.
pub fn yes_is_valid()
    ensures { YesIsValid }
{}

/// States the law that no verdict on a drawing of a simple map is `Overlap`.
pub fn overlap_is_never()
    ensures { OverlapIsNever }
{}

/// States the law that an edge's number, by which its column is found, is its index among the edges of a simple map.
pub fn edge_numbers()
    ensures { EdgeNumbers }
{}

/// States the law of rotations of bars. A list goes once round exactly where it has a certain order from one of its
/// entries on. First stand the upward edges by rising column, and then the downward ones by falling column.
pub fn once_is_in_order()
    ensures { OnceIsInOrder }
{}
