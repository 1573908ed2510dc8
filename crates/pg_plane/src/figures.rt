//! The types of the figures of drawings: points, bars and rectangles, as lists of whole numbers.

use crate::Point;
use map_lists::ItemList;

/// A list of points.
pub type Points = ItemList<Point>;

/// A list of whole numbers.
pub type Ints = ItemList<i32>;

/// A straight-line drawing: a point for each vertex, on the grid from (0, 0) to (`width`, `height`).
#[derive(Drop)]
pub struct GridFigure {
    /// The point of each vertex.
    pub points: Points,
    /// How far the grid reaches to the right.
    pub width: i32,
    /// How far the grid reaches up.
    pub height: i32,
}

/// A visibility drawing: each vertex a level bar, and each edge an upright segment between two bars.
#[derive(Drop)]
pub struct BarFigure {
    /// The height of each vertex's bar.
    pub y: Ints,
    /// Where each bar begins.
    pub x1: Ints,
    /// Where each bar ends.
    pub x2: Ints,
    /// Where each edge stands: entry i belongs to edge number i, in the order of the lesser ends, then of the greater.
    pub column: Ints,
}

/// A rectangular dual: a rectangle for each vertex.
#[derive(Drop)]
pub struct RectFigure {
    /// The left side of each rectangle.
    pub x1: Ints,
    /// The right side.
    pub x2: Ints,
    /// The lower side.
    pub y1: Ints,
    /// The upper side.
    pub y2: Ints,
}
