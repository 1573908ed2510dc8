//! Laws on the regions of convex realizers (Felsner, 2001), each as the number of its faces. A law is the contract of a
//! function that does nothing.

ghost use Rattle.convex_laws.specs.FaceRegionsLaws.{RegionsAreOne, RisingWoodsDraw};

/// States the law that the number of faces in the region of a vertex for an axis of a convex wood is unique.
pub fn regions_are_one()
    ensures { RegionsAreOne }
{}

/// States the law that a convex wood can be read off a drawing. Where each dart of the wood leads along the axis whose
/// coordinate alone rises, the coordinates are the numbers of faces in its regions.
pub fn rising_woods_draw()
    ensures { RisingWoodsDraw }
{}
