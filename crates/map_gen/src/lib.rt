//! Generated maps: stacked triangulations, in which pseudorandom numbers choose the face for each further vertex.
#![tactic(auto)]

ghost use Rattle.map_gen.specs.Laws.{StackedIsTriangulation};

mod stacked_maps;

pub use stacked_maps::stacked;

/// States the law that each map of n vertices that the generator makes, n at least three, has exactly n vertices and is
/// a triangulation. It is a simple map of genus zero with 3n - 6 edges, and so all its faces are triangles.
pub fn stacked_is_triangulation()
    ensures { StackedIsTriangulation }
{}
