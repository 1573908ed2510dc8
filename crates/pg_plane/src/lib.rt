//! Points of the integer grid, the predicates of a checker of drawings, and the figures that drawings are made of. The
//! predicates say on which side of a segment a point lies, whether it lies on it, whether two segments cross, and which
//! of two directions comes first clockwise. Each call is its formula over whole numbers of any size, without overflow
//! for coordinates from -2^20 to 2^20.
#![tactic(auto)]

pub mod face_geometry;
mod figures;
mod grid_points;

pub use figures::{BarFigure, GridFigure, Ints, Points, RectFigure};
pub use grid_points::{MOST_COORDINATE, Point, area2, clock_before, crosses, on_segment};
