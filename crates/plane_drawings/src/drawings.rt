//! Drawings of maps by points: what it means that one is plane, keeps the rotations and is counterclockwise,
//! and the law that counterclockwise faces of a triangulation are a plane drawing.

ghost use Rattle.plane_drawings.specs.DrawingsLaw.{CounterclockwiseIsPlane};

/// States the law of drawings of a triangulation: a map of genus zero with n at least three and 3n - 6 edges. They are
/// plane and keep the rotations if each face is walked counterclockwise, but that of a base dart clockwise.
pub fn counterclockwise_is_plane()
    ensures { CounterclockwiseIsPlane }
{}
