//! `Line`: an edge of a drawing as the sweep sees it, by the ranks of its two ends.

/// An edge of a drawing by the numbers of its two ends in the order of the sweep, in which the vertices
/// are numbered from 0. The sweep comes to the low end before it comes to the high end.
#[derive(Clone, Copy, PartialEq, Eq)]
pub struct Line {
    /// The end to which the sweep comes first.
    pub low: u16,
    /// The end to which it comes last.
    pub high: u16,
}
