//! Finds K5 or K3,3 as a subgraph: a witness all of whose paths are single edges.

mod branch_pairs;
mod chosen_branches;
mod subgraph_search;

pub use subgraph_search::plain_witness;
