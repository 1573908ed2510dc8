//! A graph has a map of genus zero or a Kuratowski witness, and never both.
#![tactic(auto)]

pub mod embeddings;
pub mod expanded_edges;
pub mod list_graphs;
pub mod witness_law;
