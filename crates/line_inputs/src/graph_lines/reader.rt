//! The reader of graph6 lines, fed piece by piece, as a format of the main loop.
ghost use Rattle.std.specs.Prelude.{◌≡◌, ◌+◌, ◌≤◌, []};

use crate::graph_lines::ending::Ending;
use crate::graph_lines::open_line::{Judged, Line, OpenLine, behind_header, take_line};
use graphs::Graph;
use record_runs::{Format, Taken};
use std::alloc::{AllocError, Global};
use std::marker::Model;
use std::mem;

/// A reader of the graphs of one input.
#[derive(Drop)]
pub struct GraphReader {
    alloc: Global,
    // how many bytes have been consumed
    place: usize,
    // the number of the line that is open
    line: u32,
    // whether no line is closed
    first: bool,
    // what has come of the open line
    pending: Vec<u8>,
    // the graph that was read last
    graph: Graph,
}

impl Model for GraphReader {
    ghost use Rattle.std.specs.Prelude.{◌+◌, ◌≤◌};
    ghost use Rattle.line_inputs.specs.GraphLinesState.{State};

    ghost Value = { State };

    ghost view = { λ r. record { place = r.place; line = r.line; first = r.first; pending = r.pending.items; graph = r.graph } };

    ghost invariant = { λ r. r.line ≤ r.place + 1 };
}

impl GraphReader {
    ghost use Rattle.line_inputs.specs.GraphLinesState.{IsAt};

    /// Makes a reader before the first byte. It takes no memory.
    pub fn new(alloc: Global) -> GraphReader
        ensures { IsAt result [] [] }
    {
        GraphReader {
            alloc,
            place: 0,
            line: 1,
            first: true,
            pending: Vec::new(alloc),
            graph: Graph::new(alloc),
        }
    }
}

impl Format for GraphReader {
    ghost use Rattle.line_inputs.specs.GraphLinesState.{IsAt, ending_by};
    ghost use Rattle.line_inputs.specs.GraphLinesFormat.{graph_lines, IsAny, ended_well, ending_behind};

    type Record = Graph;

    type End = Ending;

    ghost reads = { graph_lines };

    ghost At = { IsAt };

    ghost place = { λ reader. reader.place };

    ghost lent = { λ reader. reader.graph };

    ghost ending = { λ reader. ending_by reader.first reader.line reader.pending };

    ghost ended_well = { ended_well };

    ghost ending_behind = { ending_behind };

    ghost IsGiven = { IsAny };

    // Consumes of `piece` the rest of the open line, or all if no line ends, by the clauses of `Format::take`. Returns
    // `Ended` with the bytes consumed if a graph's line ended; the method `record` then lends the graph. `Goes` has the
    // bytes consumed after a header or an open line. `Bad` has the bad ending of the input.
    fn take(&mut self, piece: &[u8]) -> Result<Taken<Ending>, AllocError> {
        let line = OpenLine {
            number: self.line,
            first: self.first,
        };
        let spent = mem::replace(&mut self.graph, Graph::new(self.alloc));
        match take_line(spent, &mut self.pending, line, piece)? {
            Line::Open => {
                self.place += piece.len();
                Ok(Taken::Goes(piece.len()))
            }
            Line::Closed(k, judged) => {
                self.place += k;
                self.first = false;
                match judged {
                    Judged::Header => Ok(Taken::Goes(k)),
                    Judged::Graph(graph) => {
                        self.line += 1;
                        self.graph = graph;
                        Ok(Taken::Ended(k))
                    }
                    Judged::Bad(ending) => Ok(Taken::Bad(ending)),
                }
            }
        }
    }

    // Returns the graph that was read last.
    fn record(&self) -> &Graph {
        &self.graph
    }

    // Returns how the input ends if it ends here: `Well` if the open line has no bytes but a header, else `BadLine`.
    fn end(&self) -> Ending {
        if behind_header(self.first, &self.pending).is_empty() {
            Ending::Well
        } else {
            Ending::BadLine(self.line)
        }
    }

    // Returns `TooLong`, the ending of an input of more than 16777216 bytes.
    fn too_long(&self) -> Ending {
        Ending::TooLong
    }

    // Says whether `end` is the good ending, `Well`. Any other is a bad one.
    fn is_well(end: &Ending) -> bool {
        matches!(end, Ending::Well)
    }

    // Returns `end` with its line as it is counted behind `before` others. `None` beyond 2^32 - 1.
    fn end_behind(end: &Ending, before: usize) -> Option<Ending> {
        let lines = u32::try_from(before).ok()?;
        match *end {
            Ending::BadLine(k) => Some(Ending::BadLine(lines.checked_add(k)?)),
            Ending::Limit(k) => Some(Ending::Limit(lines.checked_add(k)?)),
            Ending::Well => Some(Ending::Well),
            Ending::TooLong => Some(Ending::TooLong),
        }
    }

    // Does nothing. Its contract is the four laws that `Format::lawful` states, for this reader.
    fn lawful() {}
}
