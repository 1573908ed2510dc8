//! Answers test rows on completions of maps to triangulations, and on what stays of their lists.
use augment_tri::triangulate;
use conn_parts::CountedMaker;
use half_edges::{HalfMap, Rotations};
use row_texts::fault_texts::tell_no_memory;
use row_texts::lists::{SomeLists, put_lists};
use row_texts::maps::put_size;
use row_texts::reply::Reply;

// Says whether the entries of each list of `old` stand in that of `new` in the same order.
fn are_kept(old: &Rotations, new: &Rotations) -> bool {
    for v in 0..old.len() {
        if v >= new.len() {
            return false;
        }
        let list = old.list(v);
        let mut next = 0;
        for u in new.list(v) {
            if next < list.len() && list[next] == *u {
                next += 1;
            }
        }
        if next < list.len() {
            return false;
        }
    }
    true
}

/// Writes the lists of a triangulation; or its size, and whether the old lists are in the new ones.
pub fn answer(call: &str, old: &Rotations, tri: &HalfMap, out: &mut Reply) {
    match tri.rotations(out.alloc) {
        Ok(new) => {
            if call == "lists" {
                put_lists(&new, out);
            } else {
                put_size(tri, out);
                let kept = are_kept(old, &new);
                out.put(if kept { " kept" } else { " lost" });
            }
        }
        Err(_) => tell_no_memory(out),
    }
}

/// Writes how many vertices and edges the map of lists has once it is completed by itself, if it has genus zero and
/// three vertices.
pub fn alone(given: &SomeLists, out: &mut Reply) {
    let mut maker = CountedMaker::new(out.alloc);
    if let Ok(map) = maker.plane_half_map(&given.lists, 3) {
        match triangulate(out.alloc, map) {
            Ok(tri) => put_size(&tri, out),
            Err(_) => tell_no_memory(out),
        }
    }
}
