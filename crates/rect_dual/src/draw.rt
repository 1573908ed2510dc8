//! Rectangular duals of maps drawn for any base dart (Kant, He 1997), by a rectangular order and the sides of boxes.

mod box_sides;
mod drawing;

pub use drawing::rect_draw;
pub(crate) use drawing::{framed, rect_draw_by_lists};
