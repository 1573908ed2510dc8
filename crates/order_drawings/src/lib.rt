//! Drawings over a canonical order: its construction sequence, each vertex's contour interval, and laws of drawings.
#![tactic(auto)]

pub mod order_runs;
pub mod order_tables;
pub mod run_drawings;
pub mod schnyder_drawings;
