//! Schnyder's wood (1990) of a run of insertions: each vertex but the roots has a parent of each of three
//! colours. The law is the contract of a function that does nothing, and speaks of all runs; the other rules of
//! a wood are lemmas. Vertices are numbered in the order in which the run places them.

ghost use Rattle.wood_runs.specs.Rules.{CornersOrdered};

/// States the law on the order of edges counterclockwise round each vertex, in the Schnyder wood of a construction
/// sequence. First are the parent of colour one and the children of colour three, then the parent of colour two and the
/// children of colour one. Last are the parent of colour three and the children of colour two. It is said of each two
/// consecutive edges.
pub fn corners_ordered()
    ensures { CornersOrdered }
{}
