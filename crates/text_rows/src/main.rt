//! The program of test rows on points, records of planar_code, and texts of figures. What a row and its answer look
//! like is told in `row_texts`.
#![tactic(auto)]

mod dispatch;
mod points;
mod records;
mod texts;

use dispatch::Rows;
use row_texts::rows::answer_rows;
use std::io;

// Answers the rows on standard input.
fn main(rt: HostRuntime) -> io::Result<()> {
    answer_rows::<Rows>(rt)
}
