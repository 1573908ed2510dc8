//! Test rows on maps made of lists, their darts, copies and induced submaps.
ghost use Rattle.half_edges.specs.Map.{IsLive};

use half_edges::{DartId, HalfMap, Rotations, VertexId};
use row_texts::fault_texts::tell_no_memory;
use row_texts::lists::put_lists;
use row_texts::maps::{dart_between, put_dart, put_size};
use row_texts::reply::Reply;
use row_texts::row_arguments::pair;
use row_texts::rows::Row;
use std::alloc::{AllocError, Global};

// Appends to `out` the numbers of vertices and edges of `map`, its spare room, and its lists.
fn put_map(map: &HalfMap, out: &mut Reply) {
    put_size(map, out);
    out.put_one(" spare", u64::from(map.spare()));
    out.put(" lists ");
    match map.rotations(out.alloc) {
        Ok(lists) => put_lists(&lists, out),
        Err(_) => tell_no_memory(out),
    }
}

// Appends to `out` a map that a call made, or that it ran out of memory.
fn put_made(made: Result<HalfMap, AllocError>, out: &mut Reply) {
    match made {
        Ok(map) => put_map(&map, out),
        Err(_) => tell_no_memory(out),
    }
}

// Appends to `out` the dart `d`, its twin, its next and previous dart, and the next along its face.
fn put_steps(map: &HalfMap, d: DartId, out: &mut Reply)
    requires { IsLive map.now d.0 }
{
    put_dart("", map, d, out);
    put_dart(", twin ", map, map.twin(d), out);
    put_dart(", next ", map, map.next(d), out);
    put_dart(", prev ", map, map.prev(d), out);
    put_dart(", along the face ", map, map.face_step(d), out);
}

// Parses flags: `yes` is set, and any other word is not.
fn flags_of(alloc: Global, text: &str) -> Vec<bool> {
    let mut flags = Vec::new(alloc);
    for word in text.split_whitespace() {
        let _ = flags.push(word == "yes");
    }
    flags
}

/// Appends to `out` the answer to a row on `map` or its `lists`.
pub fn answer(row: &Row<'_>, lists: &Rotations, map: &HalfMap, out: &mut Reply) {
    let (u, v) = pair(row.arg(1));
    match row.call {
        "lists" => put_map(map, out),
        "size" => {
            out.put_number(lists.len() as u64);
            out.put_one(" lists,", lists.total() as u64);
            out.put(" entries");
        }
        "dart" => match dart_between(map, u, v) {
            Some(d) => put_steps(map, d, out),
            None => out.put("none"),
        },
        "first" if map.n() <= u => {}
        "first" => match map.first_dart(VertexId(u)) {
            Some(d) => put_dart("", map, d, out),
            None => out.put("none"),
        },
        "live" => out.put_flag(map.is_live(DartId(u32::from(u)))),
        "copy" => put_made(map.copy(out.alloc), out),
        _ => {
            let keep = flags_of(out.alloc, row.arg(1));
            if keep.len() == usize::from(map.n()) && keep.contains(&true) {
                put_made(map.induced(out.alloc, &keep), out);
            }
        }
    }
}
