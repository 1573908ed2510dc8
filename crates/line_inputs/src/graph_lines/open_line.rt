//! Bytes of an input of graph6 joined to its open line, which is judged where they close it: header, graph or bad.
ghost use Rattle.std.specs.Prelude.{◌≡◌, ◌+◌, ◌<◌, ◌≤◌, ◌++◌, ◌∷◌, [], List, ℕ, length, drop, IfOk, OnOk, OnErr, Bool, ◌↔◌, IsTrue};
ghost use Rattle.record_runs.specs.Texts.{input_limit};
ghost use Rattle.graphs.specs.Graphs.{EdgeGraph};
ghost use Rattle.graph6_text.specs.Header.{graph_header};
ghost use Rattle.graph6_text.specs.Faults.{NamesFault, line_fault};
ghost use Rattle.line_inputs.specs.GraphLinesProgress.{Progress, Closes, Judges, behind_header as line_behind};
ghost use Rattle.line_inputs.specs.GraphLinesState.{IsLinePart, TakesLine};

use crate::graph_lines::ending::Ending;
use crate::whole_lines::{chosen, join};
use figure_text::line_length;
use graph6_text::{G6Fault, after_graph_header, read_line_into};
use graphs::Graph;
use std::alloc::AllocError;

/// The verdict on a closed graph6 line.
#[derive(Drop)]
pub enum Judged {
    /// The header.
    Header,
    /// The line of this graph.
    Graph(Graph),
    /// The input ends badly with it.
    Bad(Ending),
}

/// The position of the open line: its number, and whether it is the first.
#[derive(Clone, Copy)]
pub struct OpenLine {
    /// Its number.
    pub number: u32,
    /// Whether no line is closed before it.
    pub first: bool,
}

/// The outcome of reading a part of a piece into the open line.
#[derive(Drop)]
pub enum Line {
    /// It is open still, and the whole part joined it.
    Open,
    /// It was closed by this many bytes of the part.
    Closed(usize, Judged),
}

// Says whether `line` is the graph6 header and is the first line, as `first` says.
fn is_header(first: bool, line: &[u8]) -> bool
    ensures { IsTrue result ↔ (IsTrue first × (line.now ≡ graph_header)) }
{
    first && line == b">>graph6<<".as_slice()
}

/// Returns `line` without the header `>>graph6<<` in front, if it has one and is the `first` line; else all of `line`.
pub fn behind_header(first: bool, line: &[u8]) -> &[u8]
    ensures { result.now ≡ line_behind first line.now }
{
    if first {
        &line[after_graph_header(line)..]
    } else {
        line
    }
}

// Converts the `fault` of line `number` into the ending of the input: `Limit` for a graph with too many vertices, else
// `BadLine`. Returns None when out of memory, which is no ending.
fn fault_ending(fault: G6Fault, number: u32) -> Option<Ending>
    ensures { (line : List ℕ) → NamesFault line fault → Judges number line fault result }
{
    match fault {
        G6Fault::TooMany(_) => Some(Ending::Limit(number)),
        G6Fault::NoMemory => None,
        _ => Some(Ending::BadLine(number)),
    }
}

// Judges the closed `line`, which stands at `at` and is given without its byte 10. Returns `Header`, its `Graph`, made
// in the memory of `spent`, or `Bad` with the ending of the input. It fails only when out of memory.
fn judged_line(spent: Graph, line: &[u8], at: OpenLine) -> Result<Judged, AllocError>
    ensures { (consumed : List ℕ) (graphs : List EdgeGraph) → Progress consumed graphs at.number at.first line.now
        → length consumed < input_limit → IfOk result (Closes (consumed ++ 10 ∷ []) graphs at.number) }
{
    if is_header(at.first, line) {
        return Ok(Judged::Header);
    }
    match read_line_into(spent, behind_header(at.first, line)) {
        Ok(graph) => Ok(Judged::Graph(graph)),
        Err(fault) => match fault_ending(fault, at.number) {
            Some(ending) => Ok(Judged::Bad(ending)),
            None => Err(AllocError),
        },
    }
}

/// Reads from `part` the rest of the open line at `at`, whose first bytes `pending` holds. Returns `Closed` with the
/// number of bytes read and the verdict, and empties `pending`; or `Open`, with all of `part` appended to `pending`. A
/// graph is made in the memory of `spent`. It fails only when out of memory.
pub fn take_line(
    spent: Graph,
    pending: &mut Vec<u8>,
    at: OpenLine,
    part: &[u8],
) -> Result<Line, AllocError>
    ensures part { IfOk result (IsLinePart part.now) }
    ensures takes { (consumed : List ℕ) (graphs : List EdgeGraph) → Progress consumed graphs at.number at.first pending.old.items
        → length consumed + length part.now ≤ input_limit → IfOk result (TakesLine consumed graphs at.number at.first part.now pending.new.items) }
{
    let len = line_length(part);
    if len == part.len() {
        pending.extend_from_slice(&part[..len])?;
        return Ok(Line::Open);
    }
    let alone = pending.is_empty();
    join(alone, pending, &part[..len])?;
    let line = chosen(alone, &part[..len], pending);
    let judged = judged_line(spent, line, at)?;
    pending.clear();
    Ok(Line::Closed(len + 1, judged))
}
