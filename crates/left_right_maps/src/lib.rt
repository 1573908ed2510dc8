//! From sides to maps: a graph whose return edges have a left-right partition has a map of genus zero. Each law is the
//! contract of a function that does nothing, and holds of all graphs.
#![tactic(auto)]

ghost use Rattle.left_right_maps.specs.Brackets.{BalancedIsPlane};
ghost use Rattle.left_right_maps.specs.Graphs.{PlanarByLeftRight};
ghost use Rattle.left_right_maps.specs.Orders.{ForkIsOrdered};
ghost use Rattle.left_right_maps.specs.RootedMaps.{TreeHasTour};

/// States the law that with a left-right partition the edges of each fork have an order in which each may precede all
/// later ones, by the sides of their return edges.
pub fn fork_is_ordered()
    ensures { ForkIsOrdered }
{}

/// States the law that the darts of a map with edges and a rooted spanning tree, listed from the root, are a tour along
/// the tree, each met once.
pub fn tree_has_tour()
    ensures { TreeHasTour }
{}

/// States the law that a map with edges and a rooted spanning tree has genus zero where no two other edges cross as
/// pairs in the tour along the tree.
pub fn balanced_is_plane()
    ensures { BalancedIsPlane }
{}

/// States the law that a graph with a vertex and a depth-first forest has a map of genus zero exactly if its return
/// edges have a left-right partition.
pub fn planar_by_left_right()
    ensures { PlanarByLeftRight }
{}
