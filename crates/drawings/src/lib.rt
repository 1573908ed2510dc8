//! What a valid drawing is, below all that draws and all that checks: straight-line drawings within a grid, convex ones,
//! visibility bars and rectangular duals, with the outer face of each, and lemmas that methods and checks share.
#![tactic(auto)]

ghost use Rattle.drawings.specs.Laws.{ValidWithFewer};

mod outer_frame;

pub use outer_frame::{OuterFour, outer_four};

/// States the law that a drawing that is valid for a map with more edges, as for a completion, is valid for the map
/// itself. It stays in the grid and plane, and keeps the rotations.
pub fn valid_with_fewer()
    ensures { ValidWithFewer }
{}
