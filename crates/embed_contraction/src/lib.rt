//! Theory of edge contraction: which edges can be contracted, and how Kuratowski witnesses are lifted.
#![tactic(auto)]

pub mod contractible_edges;
pub mod contractions;
