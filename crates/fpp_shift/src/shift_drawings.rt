//! Laws: the points of the shift method are a plane drawing of a triangulation, and each triangulation has one. Each
//! law is the contract of a function that does nothing but call those on which it stands.

ghost use Rattle.fpp_shift.specs.ShiftDrawings.{ShiftPointsDraw, SomeShiftPoints, SomeShiftDrawing};

/// States the law that the shift points of a triangulation's canonical order draw it. The drawing is plane, in the grid
/// 2n - 4 by n - 2, and keeps the rotations. The base's face is outside, with its three vertices at the corners.
pub fn shift_points_draw()
    ensures { ShiftPointsDraw }
{
    order_drawings::run_drawings::counterclockwise_run_draws();
}

/// States the law that each canonical order of a triangulation has shift points.
pub fn some_shift_points()
    ensures { SomeShiftPoints }
{
    order_drawings::order_runs::order_is_run();
    order_drawings::run_drawings::points_of_order();
}

/// States the law that each triangulation has a drawing by shift points, for each base dart.
pub fn some_shift_drawing()
    ensures { SomeShiftDrawing }
{
    canon_order::some_order();
    some_shift_points();
    shift_points_draw();
}
