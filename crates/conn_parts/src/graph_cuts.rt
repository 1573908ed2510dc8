//! Components, cut vertices and separating pairs of bare graphs, by lists of their neighbours.

mod adjacency_lists;
mod cuts;

pub use adjacency_lists::graph_lists;
pub use cuts::{graph_components, graph_cut_vertex, graph_separating_pair};
