//! Visibility drawings of plane maps: horizontal bars for vertices, and vertical segments for edges.
#![tactic(auto)]

mod bar_ends;
pub mod bar_figures;
mod column_pass;
mod st_bars;

pub use st_bars::{bars, bars_of_order, bars_of_ranks};
