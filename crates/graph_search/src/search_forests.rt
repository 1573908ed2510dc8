//! Depth-first search of rotation lists in which adjacency goes both ways: its forest, numbers, parents and low
//! points, in linear time.
//!
//! The search keeps no stack: the way back from a vertex is its parent.

mod forest;
mod lowpoints;
mod search_steps;
mod searched;

pub use forest::{Forest, SearchTables, search_forest, search_forest_along, size};
pub use lowpoints::low_points;
pub(crate) use searched::Searched;
