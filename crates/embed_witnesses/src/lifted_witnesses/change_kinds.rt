//! The two kinds of change that are tried on a witness, as types: an edge's end put into a path, or K5 split into K3,3.

/// A vertex put into a path of a witness: one of the ends `a` and `b` of an edge.
#[derive(Clone, Copy)]
pub(crate) struct Mending {
    /// Whether the two ends are exchanged first; then `a` is put in, and else `b`.
    pub exchange: bool,
    /// The one end.
    pub a: u16,
    /// The other end.
    pub b: u16,
    /// The number of the path; past the last one nothing is put in.
    pub path: usize,
    /// The index in the path after which it is put in.
    pub place: usize,
}

/// A witness of K5 split into one of K3,3.
#[derive(Clone, Copy)]
pub(crate) struct Splitting {
    /// The branch that is split.
    pub a: u16,
    /// The vertex that replaces it in two of the four paths.
    pub b: u16,
    /// The five branches in another order, as digits: the one that is split, two whose paths stay at it, and two
    /// whose paths end at the other vertex.
    pub order: u32,
}

// A change of a witness: an end of an edge put into a path, or K5 split into K3,3.
#[derive(Clone, Copy)]
pub(crate) enum Change {
    Mended(Mending),
    Split(Splitting),
}
