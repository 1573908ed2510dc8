//! Theory of Schnyder woods (realizers) over construction sequences: the colours of a step's new edges and the regions.
#![tactic(auto)]

pub mod run_regions;
pub mod run_woods;
