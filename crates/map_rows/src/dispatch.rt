//! Which module answers a test row on maps or permutations, by the row's family.

use crate::{counts, cuts, edits, maps, orbits};
use half_edges::HalfMap;
use row_texts::fault_texts::tell_fault;
use row_texts::lists::lists_of;
use row_texts::reply::Reply;
use row_texts::rows::{Answers, Row};

/// The test rows of this program: on permutations, or on lists and their map, where the lists have one.
pub struct Rows;

impl Answers for Rows {
    // Appends to `out` the answer to `row`, from the module for its family.
    fn answer(row: &Row<'_>, out: &mut Reply) {
        if row.family == "perm" {
            return orbits::answer(row, out);
        }
        if let Some(given) = lists_of(out.alloc, row.arg(0)) {
            match HalfMap::from_rotations(out.alloc, &given.lists) {
                Ok(mut map) => {
                    match row.family {
                        "map" => maps::answer(row, &given.lists, &map, out),
                        "edits" => edits::answer(&mut map, row.arg(1), out),
                        "count" => counts::answer(row, &given, &map, out),
                        _ => cuts::answer(row.call, &map, out),
                    }
                    drop(map);
                }
                Err(fault) => tell_fault(fault, out),
            }
        }
    }
}
