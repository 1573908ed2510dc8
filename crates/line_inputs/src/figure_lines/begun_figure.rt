//! A figure of which some lines have been read, and the line that is due next in it.
ghost use Rattle.std.specs.Prelude.{◌<◌, length};
ghost use Rattle.line_inputs.specs.declared.figure_lines.first_line.Head.TheVariants.{Bars as BarsHead};
ghost use Rattle.line_inputs.specs.Given.{AreDrawn};

use crate::figure_lines::boxed::Held;
use crate::figure_lines::vertex_lines::Rows;
use figure_text::Draft;

/// A figure whose first line has been read, but not its last.
#[derive(Drop)]
pub struct Begun {
    /// The number of its first line.
    pub first: u32,
    /// The line that is due, and what those before it have given.
    pub due: Due,
}

/// The kind of line that is due in a figure, with what the lines before it have given.
#[derive(Drop)]
pub enum Due {
    /// That of a vertex, or of branches or a path.
    Row(SomeRows),
    /// That of the columns of bars.
    Columns(AllBars),
}

/// A figure of which the lines of some vertices, or of branches and paths, have been read, and others are due.
#[derive(Drop)]
pub struct SomeRows {
    /// The content of those lines and of the first.
    pub held: Held<Rows>,
    ghost few: { held.n < 4096 },
    ghost due: { length held.draft.lists < held.n },
    ghost drawn: { AreDrawn held.head held.draft },
}

/// A visibility drawing of which the lines of all vertices have been read, and the line of columns is due.
#[derive(Drop)]
pub struct AllBars {
    /// The content of those lines.
    pub draft: Held<Draft>,
    ghost some: { 0 < length draft.lists },
    ghost few: { length draft.lists < 4096 },
    ghost drawn: { AreDrawn BarsHead draft },
}
