//! Runs the rows on bare graphs, their witnesses and their drawings.
//! What a row and its answer look like is told in `row_texts`.
#![tactic(auto)]

mod answers;
mod bare_graphs;
mod searches;
mod witnesses;

use answers::Rows;
use row_texts::rows::answer_rows;
use std::io;

// Answers the test rows that the runtime `rt` hands over.
fn main(rt: HostRuntime) -> io::Result<()> {
    answer_rows::<Rows>(rt)
}
