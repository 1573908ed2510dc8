//! Lifts a Kuratowski witness of a graph with an edge contracted to one of the graph.

mod change_kinds;
mod changed_vertices;
mod changed_witness;
mod lifting_call;
mod mended_paths;
mod split_branches;
mod tried_changes;

pub use lifting_call::lift;
