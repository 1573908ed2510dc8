//! Regions of the vertices of a convex realizer (Felsner, 2001), each as the number of its faces. A law is the contract
//! of a function that does nothing.

ghost use Rattle.convex_faces.specs.FaceRegionsLaws.{RegionsAreCoordinates};

mod counted_regions;
mod region_boundary;

pub use convex_laws::face_regions::{regions_are_one, rising_woods_draw};
pub use counted_regions::face_region;

/// States the law that the numbers of `face_region` for the wood of a call of `convex_wood` are coordinates. They are
/// those of a figure that meets the contract of `convex_draw` for the same map and base. Axis one gives x, axis two y,
/// and axis three what both lack of f - 1, for f faces. So it is for each figure of `convex_draw` in which each dart of
/// the wood leads along the axis whose coordinate alone rises (`rising_woods_draw`).
pub fn regions_are_coordinates()
    ensures { RegionsAreCoordinates }
{}
