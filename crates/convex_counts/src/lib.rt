//! Theory of counts of faces over construction sequences with faces of any size: the points, and the realizers.
#![tactic(auto)]

pub mod face_woods;
