//! Kuratowski witnesses and edge contraction: contracted graphs, their witnesses, and lifting these to the graph.
#![tactic(auto)]

pub mod contracted_graphs;
pub mod graph_contractions;
pub mod kept_witnesses;
pub mod lifted_witnesses;
pub mod merged_ends;
pub mod plain_witnesses;
pub mod renamed_witnesses;
