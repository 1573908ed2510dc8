//! The answer of the job `schnyder` to a record: a figure by Schnyder's coordinates (1990), or the first condition of
//! the job that the record breaks.

ghost use Rattle.grid_figures.specs.SchnyderFiguresLaws.{SomeSchnyderFigure};

mod draw;

pub(crate) use draw::drawn_record;
pub use draw::schnyder_figure;

/// States the law that a simple map of genus zero with at least three vertices has a figure by Schnyder's coordinates.
pub fn some_schnyder_figure()
    ensures { SomeSchnyderFigure }
{
    crate::drawing_orders::some_completion();
    crate::drawing_orders::completion_draws();
    canon_order::some_order();
    order_drawings::schnyder_drawings::some_wood_points();
    order_drawings::schnyder_drawings::wood_points_draw();
}
