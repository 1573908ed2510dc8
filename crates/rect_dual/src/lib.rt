//! Rectangular duals (Kant, He 1997): rows and turns of an order, sides of boxes, the drawing and the edge labelling.
#![tactic(auto)]

pub mod draw;
pub mod figures;
mod framed_orders;
pub mod labels;
pub mod line_lists;
mod rect_sides;
pub mod rect_turns;
pub mod side;
mod side_lines;

pub use draw::rect_draw;
pub use labels::{Label, Labelling, edge_labels};
