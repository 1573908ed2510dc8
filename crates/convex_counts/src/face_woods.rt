//! Laws of the realizer of a construction sequence with faces of any size: the directions in which one coordinate alone
//! rises, over points by counts of faces (Felsner 2001). At a vertex the sector of an axis lies between the edges that
//! leave along the other two axes.

ghost use Rattle.convex_counts.specs.FaceWoodsLaws.{CornersMeet, OuterSides, SomeRising, OneRising};

mod axis;

pub use axis::Axis;

/// States the law that each corner of a face that a construction sequence makes lies in one sector.
pub fn corners_meet()
    ensures { CornersMeet }
{}

/// States the law of the outer sectors. Along the last contour there is one sector on the right of the last vertex, and
/// one on its left; the third one is outside of the base.
pub fn outer_sides()
    ensures { OuterSides }
{}

/// States the law that from each vertex but the root of an axis an edge leads along that axis: its coordinate rises,
/// and no other does.
pub fn some_axis_edge()
    ensures { SomeRising }
{}

/// States the law that from each vertex at most one edge leads along an axis: its coordinate rises, and no other does.
pub fn at_most_one_axis_edge()
    ensures { OneRising }
{}
