//! Makes the three-connected map of a record, of genus zero, or returns the first condition that it breaks.

ghost use Rattle.convex_class.specs.Laws.{ThreeConnectedBreakNothing};

mod three_connected;

pub use three_connected::{ConvexMap, convex_map};

/// States the law that a three-connected map of genus zero breaks no condition.
pub fn three_connected_break_nothing()
    ensures { ThreeConnectedBreakNothing }
{
    conn_parts::biconnected_maps::biconnected_break_nothing();
}
