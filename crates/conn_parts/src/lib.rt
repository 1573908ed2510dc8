//! Components of maps and graphs, and records made into maps with their components, counts and cut vertices.
#![tactic(auto)]

pub mod biconnected_maps;
mod component_numbers;
mod counted_maps;
pub mod graph_cuts;
mod map_cuts;

pub use component_numbers::{Parts, components, list_components, numbered_parts};
pub use counted_maps::{CountedMaker, CountedMap, counted_map, plane_count};
pub use graph_cuts::{graph_components, graph_cut_vertex, graph_separating_pair};
pub use map_cuts::{cut_vertex, separating_pair};
