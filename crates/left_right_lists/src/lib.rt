//! A planarity test whose yes and no are both proved, and a map of each planar graph.
//!
//! A graph has a map of genus zero exactly where the return edges (back edges) of a depth-first tree have a left-right
//! partition. `left_right_sides` finds one, or that there is none. By these sides the vertices are placed one by one, the last
//! of the tree's order first, and their entries are a map's lists.
#![tactic(auto)]

mod child_edges;
mod decide;
mod edge_orders;
mod entry_blocks;
mod joined_forest;
mod lists_of_entries;
mod return_edges;
mod search_depths;
mod side_tables;
mod tree;
mod vertex_entries;

pub use decide::{has_map, map_of_graph};
