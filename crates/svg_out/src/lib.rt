//! Figures of drawings as SVG, line by line.
//!
//! `svg` appends the picture of a figure: a first line with its size, a tag for each vertex and each edge, and a last
//! line. All numbers are whole: a unit of the figure is ten of the picture, in which y goes down. Edges come in the
//! order of their lesser ends, and then of their greater. A witness has no picture, and is its text in a comment.
#![tactic(auto)]

mod bars;
mod grid;
mod picture;
mod rects;
mod sorted_edges;
mod svg_tags;
mod witness;

pub use bars::svg_bars;
pub use grid::svg_grid;
pub use picture::svg;
pub use rects::svg_rects;
pub use witness::svg_witness;
