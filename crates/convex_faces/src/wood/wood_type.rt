//! A convex realizer as the type `ConvexWood`: the roots of its axes, and the dart of a vertex along each axis.
ghost use Rattle.std.specs.Prelude.{◌≡◌, ◌<◌, ◌↔◌, None, IfSome};
ghost use Rattle.convex_faces.specs.Directions.{count_in, root_in, out_in};

use convex_counts::face_woods::Axis;
use map_lists::{DartId, VertexId};
use std::marker::Model;

/// A convex wood: the root of each axis, and for each other vertex the dart that leads out of it along the axis.
///
/// From each vertex the darts of an axis lead to the root of that axis. An edit of the map leaves the wood as it was.
#[derive(Drop)]
pub struct ConvexWood {
    pub(crate) root_one: u16,
    pub(crate) root_two: u16,
    pub(crate) root_three: u16,
    // for each vertex the dart out of it along each axis, and any number where there is none
    pub(crate) ones: Vec<u32>,
    pub(crate) twos: Vec<u32>,
    pub(crate) threes: Vec<u32>,
}

impl Model for ConvexWood {
    ghost use Rattle.convex_faces.specs.Directions.{Directions};
    ghost use Rattle.std.specs.Prelude.{◌≡◌, ◌<◌, length};

    ghost Value = { Directions };

    ghost view = { λ w. record { root_one = w.root_one; root_two = w.root_two; root_three = w.root_three; ones = w.ones.items; twos = w.twos.items; threes = w.threes.items } };

    ghost invariant = { λ w. (length w.twos.items ≡ length w.ones.items) × (length w.threes.items ≡ length w.ones.items) × (length w.ones.items < 65536) };
}

impl ConvexWood {
    /// Returns the number of vertices. It takes no memory.
    pub fn n(&self) -> u16
        ensures { result ≡ count_in self.now }
    {
        self.ones.len() as u16
    }

    /// Returns the root of `axis`. It takes no memory.
    pub fn root(&self, axis: Axis) -> VertexId
        ensures { result.0 ≡ root_in self.now axis }
    {
        match axis {
            Axis::One => VertexId(self.root_one),
            Axis::Two => VertexId(self.root_two),
            Axis::Three => VertexId(self.root_three),
        }
    }

    // Returns the dart of `v` along `axis`, or any number at the root of `axis`.
    fn entry(&self, axis: Axis, v: VertexId) -> DartId
        requires { v.0 < count_in self.now }
        ensures { result.0 ≡ out_in self.now axis v.0 }
    {
        match axis {
            Axis::One => DartId(self.ones[v.0 as usize]),
            Axis::Two => DartId(self.twos[v.0 as usize]),
            Axis::Three => DartId(self.threes[v.0 as usize]),
        }
    }

    /// Returns the dart that leaves `v` along `axis`, or None exactly for the root of the axis. It takes no memory.
    pub fn out(&self, axis: Axis, v: VertexId) -> Option<DartId>
        requires { v.0 < count_in self.now }
        ensures root { (result ≡ None) ↔ (v.0 ≡ root_in self.now axis) }
        ensures dart { IfSome result (λ d. d.0 ≡ out_in self.now axis v.0) }
    {
        if v.0 == self.root(axis).0 {
            None
        } else {
            Some(self.entry(axis, v))
        }
    }
}
