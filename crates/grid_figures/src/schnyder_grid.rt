//! Drawings of triangulations by Schnyder's coordinates (1990), in linear time.

mod coordinate_gaps;
mod draw;

pub use draw::{WoodDrawer, wood_draw};
