//! Convex drawings of three-connected plane maps by face counts (Felsner, 2001), from any base.
#![tactic(auto)]

pub mod convex_figures;
pub mod convex_points;
mod map_drawing;

pub use map_drawing::{convex_draw, figure_by_faces};
