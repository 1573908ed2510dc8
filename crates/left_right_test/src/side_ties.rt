//! Ties: pairs of return edges that must lie on one side or on different sides.
use crate::fixed_tables::{ByEdge, EDGE_ZEROS, plus};

/// A pair of return edges of which one's side follows from the other's.
#[derive(Clone, Copy)]
pub struct Tie {
    /// The one: of two on different sides, the one along an earlier dart.
    pub one: u32,
    /// The other.
    pub other: u32,
    /// The dart, of a vertex, that the other returns along.
    pub dart: u32,
    /// Whether they are on different sides, as 1 or 0.
    pub turn: u32,
}

/// Ties in the order in which they were found. None of them follows from others.
#[derive(Clone, Copy)]
pub struct Ties {
    /// How many there are.
    pub count: u32,
    /// For each its one return edge.
    pub one: ByEdge,
    /// Its other return edge.
    pub other: ByEdge,
    /// The dart that the other returns along.
    pub dart: ByEdge,
    /// Whether they are on different sides.
    pub turn: ByEdge,
}

impl Ties {
    /// The table of no ties.
    pub const FRESH: Ties = Ties {
        count: 0,
        one: EDGE_ZEROS,
        other: EDGE_ZEROS,
        dart: EDGE_ZEROS,
        turn: EDGE_ZEROS,
    };

    /// Appends `tie` to the table.
    #[inline(always)]
    pub fn push(&mut self, tie: Tie) {
        self.one.set(self.count, tie.one);
        self.other.set(self.count, tie.other);
        self.dart.set(self.count, tie.dart);
        self.turn.set(self.count, tie.turn);
        self.count = plus(self.count, 1);
    }
}
