//! Edges of three-connected graphs that can be contracted to a three-connected graph, and the three-connectivity test.

mod contractible_edges;
mod laws;
mod three_connected;

pub use contractible_edges::contractible_edge;
pub use laws::contracted_exactly;
pub use three_connected::is_three_connected;
