//! Embeds bare graphs: a map of a graph, or a Kuratowski witness that there is none.
//!
//! A fast search is made for each, and its answer is checked. After a proved no, a witness is found by contracted
//! edges, of which the test tells which to take. Where the lists of the search are not accepted, those by sides are.
#![tactic(auto)]

pub mod contracted_embeddings;
mod edge_test;
pub mod embed_figures;
pub mod embed_laws;
mod fast_embeddings;
pub mod graph_embeddings;

pub use embed_witnesses::contracted_graphs::contract;
pub use embed_witnesses::graph_contractions::contractible_edge;
pub use embed_witnesses::lifted_witnesses::lift;
pub use fast_embeddings::embed;
pub use graph_embeddings::Embedding;
