//! How an input of figures ends: well, at a bad line, past a limit, or inside a figure.

/// How an input of figures ends.
#[derive(Clone, Copy, PartialEq, Eq)]
pub enum Ending {
    /// Outside a figure.
    Well,
    /// At a closed line that does not have the shape due there, or at a line outside a figure that is not closed.
    BadLine(u32),
    /// At a line of the due shape with a number outside its range.
    Limit(u32),
    /// Inside the figure that began at this line.
    EndInFigure(u32),
    /// Not within the bytes that are read.
    TooLong,
}
