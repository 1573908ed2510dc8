//! Chooses the module of this test program that answers a row, by the family of the row.

use crate::{bars, convex, orders, pictures, rects, verdicts};
use half_edges::HalfMap;
use row_texts::fault_texts::tell_fault;
use row_texts::lists::{SomeLists, lists_of};
use row_texts::reply::Reply;
use row_texts::rows::{Answers, Row};

// Answers a row on the map of the lists `given`, or tells why they have none.
fn over_map(row: &Row<'_>, given: &SomeLists, out: &mut Reply) {
    match HalfMap::from_rotations(out.alloc, &given.lists) {
        Ok(map) => match row.family {
            "picture" => pictures::answer(row, &map, out),
            "bars" => bars::answer(row, given, &map, out),
            _ => verdicts::answer(row, &map, out),
        },
        Err(fault) => tell_fault(fault, out),
    }
}

/// The rows of this program, on lists, and some also on their map, where the lists have one.
pub struct Rows;

impl Answers for Rows {
    fn answer(row: &Row<'_>, out: &mut Reply) {
        let Some(given) = lists_of(out.alloc, row.arg(0)) else {
            return;
        };
        match row.family {
            "draw" | "complete" | "wood" => orders::answer(row, &given, out),
            "check" if row.call == "faces" => orders::answer(row, &given, out),
            "convex" => convex::answer(row, &given, out),
            "labels" => rects::answer(row, &given, out),
            _ => over_map(row, &given, out),
        }
    }
}
