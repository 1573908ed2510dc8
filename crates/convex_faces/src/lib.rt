//! Convex drawings by counts of faces (Felsner 2001): the convex realizer of a map, the regions of its vertices, and
//! the drawing.
#![tactic(auto)]

pub mod face_regions;
pub mod walk_sides;
pub mod wood;

pub use convex_draw::convex_draw;
pub use convex_laws::closed_walks;
pub use face_regions::face_region;
pub use wood::{Axis, ConvexWood, convex_wood};
