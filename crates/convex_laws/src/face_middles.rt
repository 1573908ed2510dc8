//! Law: a drawing whose faces have middles, each on the left of all its darts, is plane, with faces of any size. Each
//! dart with the middle of its face is a triangle, so it is the law of triangles.

ghost use Rattle.convex_laws.specs.FaceMiddlesLaws.{MiddlesArePlane};

/// States the law that a drawing with middles of faces is plane. Each dart but one has the middle of its face strictly
/// on its left, and that one on its right. Then vertices stand apart, none stands on an edge of which it is no end, and
/// no two edges cross. The directions round each vertex go clockwise just once round; angles may be flat.
pub fn middles_are_plane()
    ensures { MiddlesArePlane }
{}
