//! The jobs of the program, how a run ends as a status, and why words name no job.
ghost use Rattle.std.specs.Prelude.{◌≡◌};
ghost use Rattle.pigale_words.specs.Status.{status_number};

use super::output_form::Form;

/// The job of a run: how each record of its input is answered.
#[derive(Clone, Copy, PartialEq, Eq)]
pub enum Job {
    /// Counts the vertices, edges, faces and components of each map, and gives its genus.
    Count,
    /// Draws each map of genus zero with at least three vertices by the shift method.
    Shift(Form),
    /// Draws each map of genus zero with at least three vertices by Schnyder's coordinates.
    Schnyder(Form),
    /// Draws each connected map of genus zero without cut vertex by bars that see each other.
    Bars(Form),
    /// Draws each three-connected map of genus zero with convex faces.
    Convex(Form),
    /// Tiles a rectangle by a rectangle for each vertex, for maps with a quadrangle outside and triangles inside, where
    /// no triangle of edges separates.
    Rect(Form),
    /// Makes a map with this number of vertices from the second number, and draws it. It reads nothing.
    Gen(u16, u32),
    /// Checks each figure of a text.
    Verify,
    /// Draws a genus-zero map of each graph with at least three vertices that has one, else gives a Kuratowski witness.
    Embed(Form),
}

/// How a run ended.
#[derive(Clone, Copy, PartialEq, Eq)]
pub enum Status {
    /// The input ended well, and no record was refused.
    Done,
    /// The input ended well, and some record was refused.
    SomeRefused,
    /// The words are those of no job.
    BadWords,
    /// The input ends badly, in the way that the last line names.
    BadInput,
    /// A read failed.
    ReadFault,
    /// A write failed.
    WriteFault,
    /// There was not enough memory.
    NoMemory,
}

impl Status {
    /// Returns the number with which the program ends, from 0 to 6 in the order above.
    pub fn number(self) -> u8
        ensures { result ≡ status_number self }
    {
        match self {
            Status::Done => 0,
            Status::SomeRefused => 1,
            Status::BadWords => 2,
            Status::BadInput => 3,
            Status::ReadFault => 4,
            Status::WriteFault => 5,
            Status::NoMemory => 6,
        }
    }
}

/// Why words name no job.
#[derive(Clone, Copy, PartialEq, Eq)]
pub enum WordFault {
    /// They are those of no job.
    BadWords,
    /// There was not enough memory.
    NoMemory,
}
