//! The answer of the job `verify` to a figure, as a value: its verdict.
#![tactic(auto)]

ghost use Rattle.figure_verdicts.specs.Laws.{ValidIsYes, YesIsValidFigure};

mod convex_verdicts;
mod drawing_verdicts;
mod verdict;
mod verdict_by_kind;

pub use drawing_verdicts::is_drawn_triangulation;
pub use verdict::FigureVerdict;
pub use verdict_by_kind::figure_verdict;

/// States the law that the verdict is `Yes` exactly where the figure is valid. Its lists are a simple map. All points
/// of a straight-line drawing lie in the grid, and it is plane and keeps the rotations. For a connected map the face of
/// the first vertex's first dart is the outer one. In one to be convex the faces are as they should besides. Bars are
/// valid within the width f - 1, and rectangles are a rectangular dual. A witness is one of its graph.
pub fn yes_is_valid_figure()
    ensures { YesIsValidFigure }
{
    simple_maps::no_fault_is_simple();
    draw_check::yes_is_valid();
    convex_check::yes_is_convex();
    rect_check::yes_is_dual();
}

/// States the law that a valid figure has no other verdict than `Yes`.
pub fn valid_is_yes()
    ensures { ValidIsYes }
{
    simple_maps::no_fault_is_simple();
    draw_check::yes_is_valid();
    bar_check::yes_is_valid();
    convex_check::yes_is_convex();
    rect_check::yes_is_dual();
}
