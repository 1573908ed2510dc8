//! Laws of convex drawings of three-connected maps: construction sequences, their rows, the drawing, and the realizer.
#![tactic(auto)]

pub mod closed_walks;
pub mod convex_drawings;
pub mod convex_removals;
pub mod convex_rows;
pub mod convex_runs;
pub mod convex_woods;
pub mod face_middles;
pub mod face_regions;
