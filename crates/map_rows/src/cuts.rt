//! Test rows on cut vertices and separating pairs of a map.
use conn_parts::{cut_vertex, separating_pair};
use half_edges::HalfMap;
use row_texts::fault_texts::{put_pair, put_vertex};
use row_texts::reply::Reply;

/// Appends to `out` the least cut vertex of `map`, or its least separating pair, as `call` says.
pub fn answer(call: &str, map: &HalfMap, out: &mut Reply) {
    match call {
        "vertex" => put_vertex(cut_vertex(out.alloc, map), out),
        _ => put_pair(separating_pair(out.alloc, map), out),
    }
}
