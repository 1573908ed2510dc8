//! Rectangular duals of maps: the boxes of a rectangular order's run, each at its vertex. Each law is the contract
//! of a function that does nothing.

ghost use Rattle.rect_orders.specs.Figures.{BoxesAreDualOfMap, DualForFirst};

/// States the law that a figure that has at each vertex the box of its place in a rectangular order is a rectangular
/// dual of the map.
pub fn boxes_are_dual_of_map()
    ensures { BoxesAreDualOfMap }
{}

/// States the law that a rectangular dual for the base dart from vertex 0 to its first neighbour is one by the
/// definition of the check.
pub fn dual_for_first()
    ensures { DualForFirst }
{}
