//! The program of test rows on maps, their darts, edits, counts and cuts, and on permutations. What a row and its
//! answer look like is told in `row_texts`.
#![tactic(auto)]

mod counts;
mod cuts;
mod dispatch;
mod edits;
mod maps;
mod orbits;

use dispatch::Rows;
use row_texts::rows::answer_rows;
use std::io;

// Answers the rows on standard input.
fn main(rt: HostRuntime) -> io::Result<()> {
    answer_rows::<Rows>(rt)
}
