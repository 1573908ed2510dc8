//! Laws: Schnyder's coordinates (1990) are a plane drawing of a triangulation, and each has one. Each law is the
//! contract of a function that does nothing but call those on which it stands.

ghost use Rattle.order_drawings.specs.SchnyderDrawings.{WoodPointsDraw, SomeWoodPoints, SomeSchnyderDrawing};

/// States the law that Schnyder's coordinates over a canonical order of a triangulation are a plane drawing in a square
/// grid of side n - 2. It keeps the rotations. The face of the base is outside, its three vertices at the corners.
pub fn wood_points_draw()
    ensures { WoodPointsDraw }
{
    crate::run_drawings::counterclockwise_run_draws();
}

/// States the law that each canonical order of a triangulation has points at Schnyder's coordinates.
pub fn some_wood_points()
    ensures { SomeWoodPoints }
{
    crate::order_runs::order_is_run();
    crate::run_drawings::points_of_order();
}

/// States the law that each triangulation has a drawing by Schnyder's coordinates, for each base dart.
pub fn some_schnyder_drawing()
    ensures { SomeSchnyderDrawing }
{
    canon_order::some_order();
    some_wood_points();
    wood_points_draw();
}
