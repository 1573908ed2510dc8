//! Laws of convex realizers: three axes along which the edges of a three-connected plane map lead to three outer
//! vertices. (Source: Felsner, Convex drawings of planar graphs and the order dimension of 3-polytopes, 2001.)

ghost use Rattle.convex_laws.specs.ConvexWoodsLaws.{SomeOut, WoodOfRun};

/// States the law that from each vertex but the root of an axis an edge of the map leads along that axis. The
/// coordinate of that axis rises alone, where coordinates are counts of faces over a run of the map.
pub fn some_out()
    ensures { SomeOut }
{}

/// States the law that the edges along which one coordinate alone rises are a convex wood of the map.
pub fn wood_of_run()
    ensures { WoodOfRun }
{}
