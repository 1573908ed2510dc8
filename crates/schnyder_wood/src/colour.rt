//! `Colour`: the three colours of a Schnyder wood.

/// One of the three colours, which are counted cyclically.
#[derive(Clone, Copy, PartialEq, Eq)]
pub enum Colour {
    /// The colour of the tree whose root is the first vertex of the order.
    One,
    /// That of the second vertex.
    Two,
    /// That of the last vertex.
    Three,
}
