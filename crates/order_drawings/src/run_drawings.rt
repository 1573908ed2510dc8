//! Laws: when points over a canonical order of a triangulation are a plane drawing. A method has to show only that the
//! faces which the construction sequence makes are counterclockwise, and the other face of the base is clockwise.
//! Each law is the contract of a function that does nothing but call those on which it stands.

ghost use Rattle.order_drawings.specs.RunDrawings.{CounterclockwiseRunDraws, PointsOfOrder};

/// States the law on points for the places of a canonical order of a triangulation. Let each face that its construction
/// sequence makes be counterclockwise, and the face on the other side of the base clockwise. Then the points are a
/// plane drawing that keeps the rotations, with the face of the base outside.
pub fn counterclockwise_run_draws()
    ensures { CounterclockwiseRunDraws }
{
    plane_peeling::nothing_taken_off();
    plane_peeling::outer_cycle_is_face();
    plane_drawings::drawings::counterclockwise_is_plane();
}

/// States the law that points given by index in a canonical order make a list of points by vertex.
pub fn points_of_order()
    ensures { PointsOfOrder }
{}
