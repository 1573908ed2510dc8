//! Convex realizers of three-connected plane maps (Felsner, 2001), from any base, in linear time.

mod axis_darts;
mod axis_directions;
mod wood_of_map;
mod wood_type;

pub use convex_counts::face_woods::Axis;
pub use wood_of_map::convex_wood;
pub use wood_type::ConvexWood;
