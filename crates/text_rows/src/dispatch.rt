//! Which module answers a test row on points, records or texts, by the row's family.
use crate::{points, records, texts};
use row_texts::reply::Reply;
use row_texts::rows::{Answers, Row};

/// The test rows of this program.
pub struct Rows;

impl Answers for Rows {
    // Appends to `out` the answer to `row`, from the module for its family.
    fn answer(row: &Row<'_>, out: &mut Reply) {
        match row.family {
            "point" => points::answer(row, out),
            "record" => records::answer(row, out),
            _ => texts::answer(row, out),
        }
    }
}
