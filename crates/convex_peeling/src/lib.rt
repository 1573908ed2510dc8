//! Theory of taking faces off a three-connected map in which two faces share a vertex or an edge at most.
#![tactic(auto)]

pub mod face_peeling;
