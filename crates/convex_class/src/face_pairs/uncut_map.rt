//! A map of genus zero without cut vertices with its faces, as the type that the search for separating pairs reads.
ghost use Rattle.std.specs.Prelude.{ℕ};
ghost use Rattle.map_theory.specs.Maps.{IsPlane};
ghost use Rattle.half_edges.specs.Map.{IsHalfMap};
ghost use Rattle.euler_faces.specs.FaceWalks.{AreFaces};
ghost use Rattle.graph_search.specs.Cuts.{IsCutVertex};
ghost use Rattle.convex_peeling.specs.PolyhedralMapsLaws.{IsPlaneUncut};

use euler_faces::Faces;
use half_edges::HalfMap;

/// A map of genus zero without cut vertices, and its faces.
#[derive(Clone, Copy)]
pub(crate) struct UncutMap<'a> {
    pub(crate) map: &'a HalfMap,
    pub(crate) faces: &'a Faces,
    ghost plane: { IsPlane map.now.lists },
    ghost uncut: { (v : ℕ) → ¬ IsCutVertex map.now.lists v },
    ghost walked: { ∥ AreFaces map.now faces.now ∥₁ },
}

impl UncutMap<'_> {
    // Does nothing. By its contract a proof learns what holds of the map and its faces.
    pub(crate) fn facts(&self)
        ensures known { IsHalfMap self.now.map.now }
        ensures faces { AreFaces self.now.map.now self.now.faces.now }
        ensures uncut { IsPlaneUncut self.now.map.now.lists }
    {}
}
