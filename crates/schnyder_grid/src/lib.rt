//! Drawings of triangulations by the regions of their Schnyder woods (realizers, 1990), in linear time.
#![tactic(auto)]

mod fault;
mod laws;
mod order_arcs;
mod order_of_wood;
mod region_drawing;

pub use fault::SchnyderFault;
pub use laws::figures_by_regions;
pub use order_of_wood::wood_order;
pub use region_drawing::schnyder_draw;
