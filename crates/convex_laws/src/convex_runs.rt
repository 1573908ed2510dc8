//! Laws: a three-connected plane map has a construction sequence from any dart, so face counts draw it convexly.

ghost use Rattle.convex_laws.specs.ConvexMaps.{SomeConvexDrawing};
ghost use Rattle.convex_laws.specs.RunsOfMaps.{RunOfMap};

/// States the law that certain connected maps of genus zero have a run from any dart. In them two faces share at most a
/// vertex or an edge, and each vertex has three neighbours or more. So the counts of faces over that run draw the map.
pub fn run_of_map()
    ensures { RunOfMap }
{}

/// States the law that the counts of faces over a run as in [`run_of_map`] are a convex plane drawing of the map. It is
/// in the grid m by m where the map has m faces beside that of the base.
pub fn some_convex_drawing()
    ensures { SomeConvexDrawing }
{}
