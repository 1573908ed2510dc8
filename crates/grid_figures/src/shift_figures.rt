//! The answer of the job `shift` to a record: a figure by the shift method, or the first condition of the job that the
//! record breaks. The method is that of de Fraysseix, Pach and Pollack (1990).

ghost use Rattle.grid_figures.specs.ShiftFiguresLaws.{SomeShiftFigure};

mod draw;

pub(crate) use draw::drawn_record;
pub use draw::shift_figure;

/// States the law that each simple map of genus zero with at least three vertices has a figure by the shift method.
pub fn some_shift_figure()
    ensures { SomeShiftFigure }
{
    crate::drawing_orders::some_completion();
    crate::drawing_orders::completion_draws();
    canon_order::some_order();
    fpp_shift::shift_drawings::some_shift_points();
    fpp_shift::shift_drawings::shift_points_draw();
}
