//! Laws of plane maps: bridges, faces and components when an edge is removed, the edge bound, and separation at
//! corners. Each is the contract of a function that does nothing, and speaks of all maps. `with_edge_after` puts an
//! edge into rotation lists.
#![tactic(auto)]

mod edge_insertion;
pub mod map_edits;

ghost use Rattle.plane_laws.specs.Laws.{ComponentsArePaths, EdgeRemoved, BridgeTest, FacesMerged, EdgeBound, FacesHaveThree, EdgeBoundMet, CornerSplit, DigonSplit};

pub use edge_insertion::with_edge_after;

/// States the law that two vertices of a simple map are in one component's class exactly where a path joins them.
pub fn components_are_paths()
    ensures { ComponentsArePaths }
{}

/// States the law that a map of genus zero without one of its edges has genus zero.
pub fn edge_removed()
    ensures { EdgeRemoved }
{}

/// States the law that in a map of genus zero an edge's two darts lie in one face exactly where taking the edge away
/// makes a component more.
pub fn bridge_test()
    ensures { BridgeTest }
{}

/// States the law on a connected map of genus zero that stays connected without an edge. The edge's darts lie in
/// different faces, these become one, and all others stay.
pub fn faces_merged()
    ensures { FacesMerged }
{}

/// States the law that a simple map of genus zero with at least three vertices has at most 3n - 6 edges.
pub fn edge_bound()
    ensures { EdgeBound }
{}

/// States the law that in a connected map with at least three vertices each face has at least three darts.
pub fn faces_have_three()
    ensures { FacesHaveThree }
{}

/// States the law on simple maps of genus zero with at least three vertices. They have 3n - 6 edges exactly where they
/// are connected and each face is a triangle.
pub fn edge_bound_met()
    ensures { EdgeBoundMet }
{}

/// States the law on two corners of a vertex that lie in one face of a map of genus zero. The vertex separates the
/// entries from the one corner up to the other from those from the other up to the one.
pub fn corner_split()
    ensures { CornerSplit }
{}

/// States the law that two adjacent vertices of a map of genus zero with corners in one face separate its two sides.
pub fn digon_split()
    ensures { DigonSplit }
{}
