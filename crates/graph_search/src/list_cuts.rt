//! Cut vertices and separating pairs of rotation lists.
//!
//! A vertex is a cut vertex where it parts two other vertices: a path joins them, and none that avoids it. Two
//! vertices are a separating pair where they do so together. The calls on lists serve maps and graphs alike: all that
//! they require is that adjacency goes both ways.

mod cut_vertex_flags;
mod least_cut_vertex;
mod lists_without_vertex;
mod separating_pairs;

pub use cut_vertex_flags::{cut_flags, is_uncut};
pub use least_cut_vertex::{list_cut_vertex, searched_cut_vertex};
pub use separating_pairs::list_separating_pair;
