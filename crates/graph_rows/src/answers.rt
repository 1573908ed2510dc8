//! Chooses the module of this test program that answers a row, by the family of the row.
use crate::{bare_graphs, searches};
use row_texts::reply::Reply;
use row_texts::rows::{Answers, Row};

/// The rows of this program.
pub struct Rows;

impl Answers for Rows {
    fn answer(row: &Row<'_>, out: &mut Reply) {
        match row.family {
            "search" => searches::answer(row, out),
            "graph" => bare_graphs::answer(row, out),
            _ => bare_graphs::over_line(row, out),
        }
    }
}
