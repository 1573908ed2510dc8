//! How an input of graph6 lines ends: well, at a bad line, or past a limit.

/// How an input of graph6 lines ends.
#[derive(Clone, Copy, PartialEq, Eq)]
pub enum Ending {
    /// After a closed line, or in an empty input.
    Well,
    /// At a line that is that of no graph, or is not closed.
    BadLine(u32),
    /// At the line of a graph with too many vertices.
    Limit(u32),
    /// Not within the bytes that are read.
    TooLong,
}
