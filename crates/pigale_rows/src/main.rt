//! The program of test rows on runs of the top call. Each line of standard input says what the runs below it are
//! given, or runs some words; what a run writes goes to standard output, and then its status.
//!
//! The lines and the texts that they want stand together in `rows/`, and `tools/rows.py` parts them.
//!
//! | Line | What it does |
//! |---|---|
//! | `# WORDS` | a heading: it is repeated, and what the lines above it gave is forgotten, but for names |
//! | `bytes HEX HEX*N ..` | bytes join the input, in hexadecimal; a single one may come N times |
//! | `< TEXT`, `open TEXT` | a closed line of text joins it, or an open one |
//! | `wheel K`, `prism K`, `grid C R`, `stacked N NUMBER` | the record of a map joins it; with `wide` in front a wide one |
//! | `graph`, `edge U V` | the record of 255 lists becomes the line of its edges, and one more edge joins that |
//! | `name NAME`, `copy NAME`, `copy NAME N` | the input gets a name; what has it joins the input, or its first N bytes |
//! | `read N`, `write N` | at most N bytes a call |
//! | `fail-reads N ..`, `fail-writes N ..` | the calls that fail, counted from 1 |
//! | `run WORDS` | a run: its text, and its status |
//! | `judge WORDS` | a run: the beginning of each figure, the lines beside them, and what `verify` writes for all |
//! | `show TEXT` | lines that begin thus are told whole by `judge` |
//! | `sum WORDS` | a run: its text, in which the sums over what `shift` draws of the input are told in words |
//! | `watch WORDS` | a run: what each read gave, and how many bytes had been written before it |
//! | `answer` | the call that answers one record, behind a line that stood there before |
//!
//! Where memory runs out, text is left out of the output, which then differs from what is wanted. So writing is a call
//! that cannot fail. Each owned value is made in one function, which lends it to the next: proving is slowest where
//! a function owns several values or returns early by `?`.
#![tactic(auto)]

mod cell_grids;
mod graph_inputs;
mod input_pieces;
mod judged_runs;
mod map_families;
mod run_settings;
mod runs;
mod table_lines;
mod watched_runs;

use std::io::{self, Write};
use table_lines::Table;

// Answers the lines on standard input one by one, on standard output.
fn main(rt: HostRuntime) -> io::Result<()> {
    let mut out = rt.stdout();
    let mut table = Table::new(rt.alloc());
    for line in rt.lines(rt.alloc()) {
        let mut told = Vec::new(rt.alloc());
        table.answer(rt.alloc(), line?.as_str(), &mut told);
        out.write_all(&told)?;
    }
    out.flush()
}
