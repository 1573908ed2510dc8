//! The reader of figures, fed piece by piece, as a format of the main loop.
ghost use Rattle.std.specs.Prelude.{◌≡◌, ◌+◌, ◌≤◌, []};

use crate::figure_lines::begun_figure::Begun;
use crate::figure_lines::boxed::Held;
use crate::figure_lines::closed_line::After;
use crate::figure_lines::ending::Ending;
use crate::figure_lines::open_line::{Line, take_part};
use figure_text::{Figure, GridJob, Word};
use map_lists::Rotations;
use pg_plane::Points;
use record_runs::{Format, Taken};
use std::alloc::{AllocError, Global};
use std::marker::Model;

/// A reader of the figures of one input.
#[derive(Drop)]
pub struct FigureReader {
    alloc: Global,
    // how many bytes have been consumed
    place: usize,
    // the number of the line that is open
    line: u32,
    // what has come of it
    pending: Vec<u8>,
    // room for the words of a line
    found: Vec<Word>,
    // the figure that has begun
    begun: Option<Begun>,
    // the figure that became whole last
    figure: Figure,
}

impl Model for FigureReader {
    ghost use Rattle.std.specs.Prelude.{◌+◌, ◌≤◌};
    ghost use Rattle.line_inputs.specs.FigureLinesState.{State};

    ghost Value = { State };

    ghost view = { λ r. record { place = r.place; line = r.line; pending = r.pending.items; begun = r.begun; figure = r.figure } };

    ghost invariant = { λ r. r.line ≤ r.place + 1 };
}

impl FigureReader {
    ghost use Rattle.line_inputs.specs.FigureLinesState.{IsAt};

    /// Makes a reader before the first byte. It takes no memory.
    pub fn new(alloc: Global) -> FigureReader
        ensures { IsAt result [] [] }
    {
        FigureReader {
            alloc,
            place: 0,
            line: 1,
            pending: Vec::new(alloc),
            found: Vec::new(alloc),
            begun: None,
            figure: Figure::Grid {
                job: GridJob::Shift,
                lists: Rotations::new(alloc),
                points: Points::new(alloc),
            },
        }
    }
}

// Replaces `figure` by the boxed figure `held`. As its own function, it costs nothing for a line that ends no figure.
fn keep(figure: &mut Figure, held: Held<Figure>)
    ensures { figure.new ≡ held }
{
    *figure = held.into_inner();
}

impl Format for FigureReader {
    ghost use Rattle.line_inputs.specs.FigureLinesState.{IsAt, ending_by};
    ghost use Rattle.line_inputs.specs.Given.{IsGiven};
    ghost use Rattle.line_inputs.specs.FigureLinesFormat.{figures, ended_well, ending_behind};

    type Record = Figure;

    type End = Ending;

    ghost reads = { figures };

    ghost At = { IsAt };

    ghost place = { λ reader. reader.place };

    ghost lent = { λ reader. reader.figure };

    ghost ending = { λ reader. ending_by reader.begun reader.line reader.pending };

    ghost ended_well = { ended_well };

    ghost ending_behind = { ending_behind };

    ghost IsGiven = { IsGiven };

    // Consumes of `piece` whole vertex lines, or else the rest of the open line, or all where no line ends, by the
    // clauses of `Format::take`. Returns `Ended` with the bytes consumed if a figure ended; the method `record` then
    // lends it. `Goes` has the bytes consumed if none ended, and `Bad` the bad ending of the input.
    fn take(&mut self, piece: &[u8]) -> Result<Taken<Ending>, AllocError> {
        let before = self.begun.take();
        match take_part(
            self.alloc,
            &mut self.found,
            &mut self.pending,
            before,
            self.line,
            piece,
        )? {
            Line::Open(begun) => {
                self.begun = begun;
                self.place += piece.len();
                Ok(Taken::Goes(piece.len()))
            }
            Line::Closed(k, after) => {
                self.place += k;
                self.line += 1;
                match after {
                    After::Goes(begun) => {
                        self.begun = begun;
                        Ok(Taken::Goes(k))
                    }
                    After::Whole(held) => {
                        keep(&mut self.figure, held);
                        Ok(Taken::Ended(k))
                    }
                    After::Bad(ending) => Ok(Taken::Bad(ending)),
                }
            }
            Line::Ran(run) => {
                self.begun = Some(run.begun);
                self.place += run.bytes;
                self.line += run.lines as u32;
                Ok(Taken::Goes(run.bytes))
            }
        }
    }

    // Returns the figure that was completed last.
    fn record(&self) -> &Figure {
        &self.figure
    }

    // Returns how the input ends if it ends here: `EndInFigure` inside a figure, `Well` or `BadLine` outside one.
    fn end(&self) -> Ending {
        match &self.begun {
            Some(begun) => Ending::EndInFigure(begun.first),
            None => {
                if self.pending.is_empty() {
                    Ending::Well
                } else {
                    Ending::BadLine(self.line)
                }
            }
        }
    }

    // Returns `TooLong`, the ending of an input of more than 16777216 bytes.
    fn too_long(&self) -> Ending {
        Ending::TooLong
    }

    // Says whether `end` is the good ending, `Well`. Any other is a bad one.
    fn is_well(end: &Ending) -> bool {
        matches!(end, Ending::Well)
    }

    // Returns `end` with its line as it is counted behind `before` others. `None` beyond 2^32 - 1.
    fn end_behind(end: &Ending, before: usize) -> Option<Ending> {
        let lines = u32::try_from(before).ok()?;
        match *end {
            Ending::BadLine(k) => Some(Ending::BadLine(lines.checked_add(k)?)),
            Ending::Limit(k) => Some(Ending::Limit(lines.checked_add(k)?)),
            Ending::EndInFigure(k) => Some(Ending::EndInFigure(lines.checked_add(k)?)),
            Ending::Well => Some(Ending::Well),
            Ending::TooLong => Some(Ending::TooLong),
        }
    }

    // Does nothing. Its contract is the four laws that `Format::lawful` states, for this reader.
    fn lawful() {}
}
