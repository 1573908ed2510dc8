//! Pairs of return edges that a fork of a rooted forest forces to the same side, or to different sides.
ghost use Rattle.std.specs.Prelude.{◌≡◌, ◌<◌, true, false, slice_index, IsTrue};
ghost use Rattle.left_right_check.specs.Ties.{AreTied, turned as turn_of};

use crate::forests::{ReturnEdge, RootedForest, entry};

/// A fork: a vertex and two of its edges, by their other ends.
#[derive(Clone, Copy)]
pub struct Fork {
    /// The vertex.
    pub vertex: u16,
    /// The end of the one edge.
    pub one: u16,
    /// The end of the other.
    pub other: u16,
}

/// Two return edges.
#[derive(Clone, Copy)]
pub struct Pair {
    /// The one edge.
    pub one: ReturnEdge,
    /// The other.
    pub other: ReturnEdge,
}

/// Returns `side`, or the other side where `turn` is set.
pub fn turned(turn: bool, side: bool) -> bool
    ensures { result ≡ turn_of turn side }
{
    if turn { !side } else { side }
}

impl<'a> RootedForest<'a> {
    // Says whether `edge` ends nearer to the root than `other`.
    fn ends_above(&self, edge: ReturnEdge, other: ReturnEdge) -> bool
        ensures { IsTrue result → slice_index self.now.depths.now edge.to < slice_index self.now.depths.now other.to }
    {
        entry(self.depths, edge.to) < entry(self.depths, other.to)
    }

    /// Says whether `fork` forces the return edges of `pair` to one side; only a yes is promised. Then both return by
    /// its first edge, and end below the end of `lowest`, which returns by its second edge.
    pub fn are_alike(&self, fork: Fork, pair: Pair, lowest: ReturnEdge) -> bool
        ensures { IsTrue result → AreTied self.now.graph.now self.now.parents.now self.now.depths.now false pair.one.from pair.one.to pair.other.from pair.other.to }
    {
        if fork.one == fork.other {
            return false;
        }
        if !self.returns_by(fork.vertex, fork.one, pair.one) {
            return false;
        }
        if !self.returns_by(fork.vertex, fork.one, pair.other) {
            return false;
        }
        if !self.returns_by(fork.vertex, fork.other, lowest) {
            return false;
        }
        if !self.ends_above(lowest, pair.one) {
            return false;
        }
        self.ends_above(lowest, pair.other)
    }

    /// Says whether `fork` forces the return edges of `pair` to different sides; only a yes is promised. Then one
    /// returns by its first edge, the other by its second. Each ends below the end of an edge by the other one, named
    /// by `lowest`.
    pub fn are_opposite(&self, fork: Fork, pair: Pair, lowest: Pair) -> bool
        ensures { IsTrue result → AreTied self.now.graph.now self.now.parents.now self.now.depths.now true pair.one.from pair.one.to pair.other.from pair.other.to }
    {
        if fork.one == fork.other {
            return false;
        }
        if !self.returns_by(fork.vertex, fork.one, pair.one) {
            return false;
        }
        if !self.returns_by(fork.vertex, fork.other, pair.other) {
            return false;
        }
        if !self.returns_by(fork.vertex, fork.one, lowest.one) {
            return false;
        }
        if !self.returns_by(fork.vertex, fork.other, lowest.other) {
            return false;
        }
        if !self.ends_above(lowest.other, pair.one) {
            return false;
        }
        self.ends_above(lowest.one, pair.other)
    }
}
