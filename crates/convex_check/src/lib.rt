//! Checks whether a drawing is convex over a base dart: no inner face bends inwards, and the outer face is a triangle,
//! with flat angles allowed.
#![tactic(auto)]

pub mod triangle_corners;

ghost use Rattle.convex_check.specs.Laws.{YesIsConvex};

mod check;
mod drawing;
mod inward_bends;
mod outer_face;
mod verdict;

pub use check::{check_convex, check_convex_points};
pub use verdict::ConvexVerdict;

/// States the law that the verdict is `Yes` exactly where the drawing is convex.
pub fn yes_is_convex()
    ensures { YesIsConvex }
{}
