//! The graph6 lines that name simple graphs: read, written, and the first fault of others.
//!
//! A line is a number of vertices and then one bit for each pair of vertices, six bits a byte. A `Graph`
//! keeps these bytes as they are.
#![tactic(auto)]

mod file_header;
mod graph6_lines;
mod laws;

pub use file_header::after_graph_header;
pub use graph6_lines::{G6Fault, read_line, read_line_into, write_line};
pub use laws::{lines_are_graphs, one_graph, one_line};
