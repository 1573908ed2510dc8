//! The check of rectangular duals: each vertex is a rectangle, and two share a side exactly where their vertices are
//! adjacent. It says whether the rectangles fill the one from (0, 0) to their greatest sides, without overlap, whether
//! all contacts are edges and all edges contacts, and whether the outer face is the frame. Where not, it says which
//! fault comes first.
#![tactic(auto)]

ghost use Rattle.rect_check.specs.Laws.{YesIsDual};

mod areas;
mod check;
mod least_pairs;
mod meeting_marks;
mod missed_edges;
mod outer_frame;
mod rects;
mod shared_sides;
mod sweep;
mod sweep_order;
mod verdict;

pub use check::check_rects;
pub use verdict::RectVerdict;

/// States the law that a verdict is `Yes` exactly where the figure is a rectangular dual.
pub fn yes_is_dual()
    ensures { YesIsDual }
{}
