//! Straight-line drawings: the definition of plane, the law that counterclockwise faces make a drawing plane, and the
//! sweep that finds crossings.
#![tactic(auto)]

pub mod drawings;
pub mod plane_sweep;
pub mod sweep_check;
