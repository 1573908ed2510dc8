//! Faults of a text of figures, as the type `TextFault`: a bad line by its number.

/// A fault of a text, with the number of a line, from 1.
#[derive(Clone, Copy, PartialEq, Eq)]
pub enum TextFault {
    /// This closed line does not have the shape due there, or this line stands outside a figure and is not closed.
    BadLine(u32),
    /// The text ends before the figure that began at this line has all its lines closed.
    EndInFigure(u32),
    /// This line has the due shape, but a number is outside its range.
    Limit(u32),
    /// There was not enough memory.
    NoMemory,
}
