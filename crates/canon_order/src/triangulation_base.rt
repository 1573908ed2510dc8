//! A triangulation with a base edge and the third vertices of its two faces, as the peeling reads it.
ghost use Rattle.std.specs.Prelude.{◌≡◌, ◌<◌, length};
ghost use Rattle.map_theory.specs.Maps.{HasDart, follows};
ghost use Rattle.plane_laws.specs.Triangulations.{IsTriangulation};

use half_edges::Rotations;

// The lists of a triangulation, with the ends of a base and the third vertices of its two faces.
#[derive(Clone, Copy)]
pub(crate) struct Base<'a> {
    pub(crate) lists: &'a Rotations,
    // the vertex that the base leaves
    pub(crate) t: u16,
    // the vertex that it leads to
    pub(crate) s: u16,
    // the third vertex of the face on its left
    pub(crate) third: u16,
    // the third vertex of the face on its right
    pub(crate) under: u16,
    ghost few: { length lists.now < 4096 },
    ghost triangulated: { ∥ IsTriangulation lists.now ∥₁ },
    ghost dart: { ∥ HasDart lists.now t s ∥₁ },
    ghost left: { third ≡ follows lists.now s t },
    ghost right: { under ≡ follows lists.now t s },
}

impl Base<'_> {
    // Does nothing. By its contract a proof learns what holds of the triangulation and its base.
    pub(crate) fn facts(&self)
        ensures triangulation { IsTriangulation self.now.lists.now }
        ensures base { HasDart self.now.lists.now self.now.t self.now.s }
    {}
}
