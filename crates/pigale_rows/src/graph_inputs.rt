//! Test inputs of graph6: the line of the edges of a map with 255 vertices, and edges added to it.
use map_lists::Rotations;
use planar_code::{Step, next_record};
use std::alloc::Global;

/// Sets the bit of the edge from `u` to `v` in the graph6 line of a graph of more than 62 vertices, if `u` is less
/// than `v`.
fn join(line: &mut Vec<u8>, u: usize, v: usize) {
    let place = (v.wrapping_mul(v.wrapping_sub(1)) / 2).wrapping_add(u);
    let at = (place / 6).wrapping_add(4);
    if u < v && at < line.len() {
        line[at] = line[at].wrapping_add(32u8 >> (place % 6));
    }
}

/// Replaces `line` by the graph6 line of the graph of 255 vertices that has the edges of a map.
fn put_line(lists: &Rotations, line: &mut Vec<u8>) {
    line.clear();
    let _ = line.extend_from_slice(b"~?B~");
    let _ = line.resize(5402, 63);
    for v in 0..lists.len() {
        for u in lists.list(v) {
            join(line, usize::from(*u), v);
        }
    }
}

/// Replaces the record in `input` by the graph6 line of its edges, without a line end. Returns false where there is
/// no record.
pub fn put_graph(alloc: Global, input: &mut Vec<u8>) -> bool {
    match next_record(alloc, input, 0) {
        Ok(Step::Lists(lists, _)) => {
            put_line(&lists, input);
            true
        }
        _ => false,
    }
}

/// Adds to the graph6 line `input` the edge between the two vertices in `rest`, which are not adjacent. Returns false
/// where it names no two.
pub fn put_edge(input: &mut Vec<u8>, rest: &str) -> bool {
    let (u, v) = rest.split_once(' ').unwrap_or((rest, ""));
    match (u.parse::<usize>(), v.parse::<usize>()) {
        (Ok(u), Ok(v)) => {
            join(input, u.wrapping_sub(1), v.wrapping_sub(1));
            true
        }
        _ => false,
    }
}
