//! The edges of a fork by which edges return, and their parts put into one stack.

/// An edge of a vertex by which edges return, by the stack of blocks that has these.
#[derive(Clone, Copy)]
pub struct ForkEdge {
    /// The stack.
    pub stack: usize,
    /// The least depth at which an edge of its blocks ends.
    pub low: u16,
    /// Whether another one ends deeper.
    pub mixed: bool,
}
