//! Rectangular orders, in which rectangular duals are built: each vertex put on has two later neighbours. Each law is
//! the contract of a function that does nothing.
#![tactic(auto)]

pub mod rect_corners;
pub mod rect_duals;
pub mod rect_labellings;
pub mod rect_order;

ghost use Rattle.rect_orders.specs.Laws.{ClosedIsTriangulation, SomeRectOrder};
ghost use Rattle.rect_orders.specs.Runs.{RectOrderIsRun};

/// States the law that a map of the class of `rect` has no edge from top to bottom; with one added in its outer face it
/// is a triangulation.
pub fn closed_is_triangulation()
    ensures { ClosedIsTriangulation }
{}

/// States the law that each map of the class of `rect` has a rectangular order.
pub fn some_rect_order()
    ensures { SomeRectOrder }
{}

/// States the law that the construction sequence of a rectangular order, with its last step one vertex shorter, is one
/// over which boxes can be built. Its vertices are joined exactly where they are adjacent in the map.
pub fn rect_order_is_run()
    ensures { RectOrderIsRun }
{}
