//! A left-to-right sweep over vertices that shows a drawing plane, or so without the edges of a few excluded vertices.

mod line_sides;
mod new_lines;
mod sweep;
mod sweep_order;
mod sweep_status;

pub use new_lines::is_among;
pub use sweep::{is_plane_by_sweep, loose_vertices};
