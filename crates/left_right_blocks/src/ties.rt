//! Edges that are on the side of another one or on the other side, and sides of all edges by these.

/// An edge that is on the side of another one, or on the other side.
#[derive(Clone, Copy)]
pub struct Tie {
    /// The edge.
    pub edge: u16,
    /// The other edge.
    pub to: u16,
    /// Whether the two are on different sides.
    pub turn: bool,
}
