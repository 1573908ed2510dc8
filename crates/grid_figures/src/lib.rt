//! The figures of the jobs shift and schnyder: a completed triangulation, its canonical order and the record's drawing.
#![tactic(auto)]

mod drawer;
pub mod drawing_orders;
mod record;
pub mod schnyder_figures;
pub mod schnyder_grid;
pub mod shift_figures;

pub use drawer::Drawer;
