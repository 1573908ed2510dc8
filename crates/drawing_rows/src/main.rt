//! Runs the rows on maps that are completed, ordered and drawn, and on drawings that are checked.
//! What a row and its answer look like is told in `row_texts`.
#![tactic(auto)]

mod answers;
mod bars;
mod completions;
mod convex;
mod orders;
mod pictures;
mod rects;
mod trees;
mod verdicts;
mod woods;

use answers::Rows;
use row_texts::rows::answer_rows;
use std::io;

// Answers the test rows that the runtime `rt` hands over.
fn main(rt: HostRuntime) -> io::Result<()> {
    answer_rows::<Rows>(rt)
}
