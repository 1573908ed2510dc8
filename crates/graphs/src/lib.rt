//! Simple graphs by their edges, without a drawing: at most 255 vertices, and one bit for each pair of them.
//!
//! A `Graph` keeps the bits as a graph6 line has them, six a byte: no format is told here but what `bits` says.
#![tactic(auto)]

pub mod bits;
mod graph;

pub use graph::Graph;
