//! Recognizes the maps that the job convex serves, and finds the first broken condition of the others.
#![tactic(auto)]

pub mod convex_maps;
pub mod face_pairs;
