//! Counterclockwise faces are a plane drawing: the law, said of the darts of any drawing whose faces are
//! triangles, each walked counterclockwise but one. It needs no genus, no connectedness and no bound: each
//! side is met by a ray as often from the one side as from the other, and that is counted.

ghost use Rattle.pg_plane.specs.Law.{FacesArePlane};

/// States the law of a drawing in which each face is a triangle walked counterclockwise, but for that of a base,
/// which is walked clockwise. Its points are distinct, and none lies on an edge of which it is no end. No two edges
/// cross, and the directions from each vertex go clockwise exactly once round.
pub fn faces_are_plane()
    ensures { FacesArePlane }
{}
