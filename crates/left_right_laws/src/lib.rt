//! The theory of the left-right planarity test: paths in maps of genus zero, tours along trees, and sides of return
//! edges at forks. Each law is the contract of a function that does nothing, and holds of all maps.
#![tactic(auto)]

ghost use Rattle.left_right_laws.specs.Forests.{ForkOrder, PlaneIsLeftRight};
ghost use Rattle.left_right_laws.specs.Tours.{PlaneByNesting};
ghost use Rattle.left_right_laws.specs.Ways.{ThreeWays};

/// States the law that three internally disjoint paths between two vertices of a map of genus zero have opposite cyclic
/// orders at the two.
pub fn three_ways()
    ensures { ThreeWays }
{}

/// States the law of order at a fork of edges e and f in a map of genus zero. An edge that returns by e, to below the
/// end of one by f, follows the tree path there exactly where e follows f. Both rotations begin at the parent.
pub fn fork_order()
    ensures { ForkOrder }
{}

/// States the law that a graph with a map of genus zero has a left-right partition, for each of its rooted forests.
pub fn plane_is_left_right()
    ensures { PlaneIsLeftRight }
{}

/// States the law that a connected map with edges has genus zero exactly where, in a tour along a spanning tree, no two
/// of its other edges cross.
pub fn plane_by_nesting()
    ensures { PlaneByNesting }
{}
