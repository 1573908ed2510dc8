//! How the edges of a map with a rectangular order follow one another round an inner vertex. The law is the contract of
//! a function that does nothing.

ghost use Rattle.rect_orders.specs.Corners.{CornersOfMap};

/// States the law of corners at an inner vertex: the next edge clockwise has the label of the one before, or the label
/// that follows it. The labels go runs in, rises out, runs out, rises in.
pub fn corners_of_map()
    ensures { CornersOfMap }
{}
