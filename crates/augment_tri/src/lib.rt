//! Completes maps of genus zero to triangulations by adding edges.
#![tactic(auto)]

mod complete;
mod ears;
mod face_filling;
mod joined_components;

pub use complete::{complete_parts, triangulate};
