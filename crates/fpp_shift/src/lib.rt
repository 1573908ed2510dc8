//! Drawings of triangulations by the shift method of de Fraysseix, Pach and Pollack (1990), in linear time, and
//! the tree of offsets by which they are made.
#![tactic(auto)]

mod fault;
pub mod offset_trees;
mod shift_drawer;
pub mod shift_drawings;
pub mod shift_points;
pub mod shift_trees;

pub use fault::ShiftFault;
pub use offset_trees::{Node, Offsets, sum_offsets};
pub use shift_drawer::{Shifter, shift_draw};
pub use shift_trees::offset_tree;
