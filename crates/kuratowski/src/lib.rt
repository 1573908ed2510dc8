//! Witnesses that a graph is not planar: subdivisions of K5 or K3,3, by their branches and paths, and their check.
#![tactic(auto)]

mod branches;
mod check;
mod inner_vertices;
mod path_edges;
mod shape;
mod witness;

pub use check::{WitnessVerdict, check_witness};
pub use witness::{Kind, Witness};
