//! Tables for drawing by a canonical order, by ranks: the interval of the contour under each vertex, and the points.

ghost use Rattle.order_drawings.specs.Ranks.{RanksArePlaces};

mod contour_rows;
mod points_by_rank;
mod ranked_lists;

pub use contour_rows::{order_rows, rows_into};
pub use points_by_rank::points_at;
pub use ranked_lists::RankedList;

/// States the law that each vertex's rank in a canonical order is an index of it, below the number of vertices.
pub fn ranks_are_places()
    ensures { RanksArePlaces }
{}
