//! The left-right planarity test (de Fraysseix, Rosenstiehl; as in Brandes, The left-right planarity test, 2009), with
//! rotation lists where it passes, and the check of what shows its conflict where it does not.
//!
//! A graph is reported as nonplanar only where the proof of it passed the check. Of the lists nothing is promised:
//! the caller checks them.
#![tactic(auto)]

mod bitwise_orientation;
mod conflict_pairs;
mod conflict_proof;
mod conflict_ring;
mod dart_lists;
mod embedding;
mod fixed_tables;
mod graph_edges;
mod orientation;
mod planarity_test;
mod search_tables;
mod settled_sides;
mod side_ties;

pub use conflict_ring::{OddRing, branch_of, near_edge};
pub use dart_lists::Links;
pub use embedding::ends_of;
pub use fixed_tables::{
    ByDart, ByEdge, ByVertex, DART_ZEROS, EDGE_ZEROS, NONE, VERTEX_ZEROS, minus, plus, twice,
};
pub use graph_edges::Edges;
pub use planarity_test::LeftRightTest;
pub use search_tables::Search;
