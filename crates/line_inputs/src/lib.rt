//! Inputs of lines, read piece by piece: figures in their text, and graphs in graph6.
#![tactic(auto)]

pub mod figure_lines;
pub mod graph_lines;
mod whole_lines;

pub use figure_lines::read_figure;
