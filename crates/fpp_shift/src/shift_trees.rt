//! Makes the tree of offsets of the shift method from a map and its canonical order, in linear time.

ghost use Rattle.fpp_shift.specs.ShiftTreesLaws.{OffsetTreeAddsUp};

mod attachment_intervals;
mod trees_by_lists;
mod trees_by_map;

pub(crate) use trees_by_lists::list_tree;
pub use trees_by_map::offset_tree;

/// States the law that an order's tree of offsets adds up to the order's shift points. Its links are those of a tree.
pub fn offset_tree_adds_up()
    ensures { OffsetTreeAddsUp }
{}
