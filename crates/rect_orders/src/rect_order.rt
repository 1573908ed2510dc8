//! Rectangular orders: the vertices of a map in an order from which a rectangular dual can be made.

mod outer_cycle;
mod outer_frame;
mod vertex_removal;

pub use outer_frame::{Frame, frame_of, with_closing_edge};
pub use vertex_removal::rect_order;
