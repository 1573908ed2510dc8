//! The slow answer to a graph, which always comes: a map by edge sides, or a Kuratowski witness by contracted edges.

mod by_sides;
mod contracted_witnesses;
mod kept_edges;

pub use by_sides::embed_by_sides;
pub use contracted_witnesses::contracted_witness;
