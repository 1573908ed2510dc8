//! The answer to a planarity question: a map of genus zero with exactly the graph's edges, or a Kuratowski witness.

mod embedding;

pub use embedding::Embedding;
