//! `Wood`: a Schnyder wood, with its roots and parents.
ghost use Rattle.std.specs.Prelude.{◌≡◌, ◌<◌, ◌↔◌, None, IsTrue, IfSome};
ghost use Rattle.schnyder_wood.specs.Parents.{IsRooted, IsRoot, kind, count_in, root_in, parent_in};

use crate::colour::Colour;
use map_lists::VertexId;
use std::marker::Model;

/// A wood: a root of each colour, and for each vertex but these a parent of each colour.
///
/// From every such vertex the parents of one colour lead to its root. An edit of the map leaves the wood as it was.
#[derive(Drop)]
pub struct Wood {
    pub(crate) root_one: u16,
    pub(crate) root_two: u16,
    pub(crate) root_three: u16,
    // for each vertex its parent of each colour, and any vertex where it has none
    pub(crate) ones: Vec<u16>,
    pub(crate) twos: Vec<u16>,
    pub(crate) threes: Vec<u16>,
}

impl Model for Wood {
    ghost use Rattle.schnyder_wood.specs.Parents.{Parents, IsRooted};
    ghost use Rattle.std.specs.Prelude.{◌≡◌, length};

    ghost Value = { Parents };

    ghost view = { λ w. record { root_one = w.root_one; root_two = w.root_two; root_three = w.root_three; ones = w.ones.items; twos = w.twos.items; threes = w.threes.items } };

    ghost invariant = { λ w. IsRooted (record { root_one = w.root_one; root_two = w.root_two; root_three = w.root_three; ones = w.ones.items; twos = w.twos.items; threes = w.threes.items }) × (length w.twos.items ≡ length w.ones.items) × (length w.threes.items ≡ length w.ones.items) };
}

impl Wood {
    /// Does nothing. By its contract a proof learns that the wood is rooted: parents of each colour lead to its root.
    pub fn facts(&self)
        ensures { IsRooted self.now }
    {
        let _ones = &self.ones;
    }

    /// Returns the number of vertices. It takes no memory.
    pub fn n(&self) -> u16
        ensures { result ≡ count_in self.now }
    {
        self.ones.len() as u16
    }

    /// Returns the root of `colour`. It takes no memory.
    pub fn root(&self, colour: Colour) -> VertexId
        ensures { result.0 ≡ root_in self.now (kind colour) }
    {
        match colour {
            Colour::One => VertexId(self.root_one),
            Colour::Two => VertexId(self.root_two),
            Colour::Three => VertexId(self.root_three),
        }
    }

    // Says whether `v` is a root.
    fn is_root(&self, v: VertexId) -> bool
        ensures { IsTrue result ↔ IsRoot self.now v.0 }
    {
        v.0 == self.root_one || v.0 == self.root_two || v.0 == self.root_three
    }

    // Returns the entry of `v` in the parent table of `colour`. It is the parent of `v`, or for a root any vertex.
    pub(crate) fn entry(&self, colour: Colour, v: VertexId) -> VertexId
        requires { v.0 < count_in self.now }
        ensures { result.0 ≡ parent_in self.now (kind colour) v.0 }
    {
        match colour {
            Colour::One => VertexId(self.ones[v.0 as usize]),
            Colour::Two => VertexId(self.twos[v.0 as usize]),
            Colour::Three => VertexId(self.threes[v.0 as usize]),
        }
    }

    /// Returns the parent of `v` in `colour`, or None exactly for the three roots. It takes no memory.
    pub fn parent(&self, colour: Colour, v: VertexId) -> Option<VertexId>
        requires { v.0 < count_in self.now }
        ensures root { (result ≡ None) ↔ IsRoot self.now v.0 }
        ensures parent { IfSome result (λ u. u.0 ≡ parent_in self.now (kind colour) v.0) }
    {
        if self.is_root(v) {
            None
        } else {
            Some(self.entry(colour, v))
        }
    }
}
