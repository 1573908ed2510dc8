//! Test rows on faces, components and Euler's counts.
use conn_parts::components;
use euler_faces::{Counter, EulerCount, Faces, count_lists, euler, euler_by_components, faces};
use half_edges::{FaceId, HalfMap, MapFault, VertexId};
use row_texts::fault_texts::{tell_fault, tell_no_memory};
use row_texts::lists::{SomeLists, lists_of};
use row_texts::reply::Reply;
use row_texts::rows::Row;
use std::alloc::{AllocError, Global};

// Appends to `out` the vertices on the walk of each face, with `!` where a dart has another face.
fn put_walks(map: &HalfMap, found: &Faces, out: &mut Reply) {
    for f in 0..found.count() {
        if 0 < f {
            out.put_letter(';');
        }
        let walk = found.walk(FaceId(f));
        for i in 0..walk.len() {
            let d = walk[i];
            out.put_gap(i);
            if found.of_dart(d) == FaceId(f) && map.is_live(d) {
                out.put_number(u64::from(map.tail(d).0));
            } else {
                out.put_letter('!');
            }
        }
    }
}

// Appends to `out` the counts of a map.
fn put_count(count: EulerCount, out: &mut Reply) {
    out.put_one("n", u64::from(count.n));
    out.put_one(" m", u64::from(count.m));
    out.put_one(" f", u64::from(count.f));
    out.put_one(" c", u64::from(count.c));
    out.put_one(" genus", u64::from(count.genus()));
}

// Appends to `out` the counts of lists, or the fault by which they are no map.
fn put_counted(found: Result<EulerCount, MapFault>, out: &mut Reply) {
    match found {
        Ok(count) => put_count(count, out),
        Err(fault) => tell_fault(fault, out),
    }
}

// Appends to `out` the counts of each list of `args`, by one counter.
fn count_all(args: &[&str], out: &mut Reply) {
    let mut counter = Counter::new(out.alloc);
    for i in 0..args.len() {
        if 0 < i {
            out.put(", ");
        }
        if let Some(given) = lists_of(out.alloc, args[i]) {
            put_counted(counter.count(&given.lists), out);
        }
    }
}

// Returns the counts of a map whose components are counted first.
fn by_components(alloc: Global, map: &HalfMap) -> Result<EulerCount, AllocError> {
    let found = components(alloc, map)?;
    euler_by_components(alloc, map, found.count())
}

// Appends to `out` the counts by the lists, by their map, and by the map with its components.
fn put_both(given: &SomeLists, map: &HalfMap, out: &mut Reply) {
    put_counted(count_lists(out.alloc, &given.lists), out);
    out.put(", of the map ");
    match euler(out.alloc, map) {
        Ok(count) => put_count(count, out),
        Err(_) => tell_no_memory(out),
    }
    out.put(", by its components ");
    match by_components(out.alloc, map) {
        Ok(count) => put_count(count, out),
        Err(_) => tell_no_memory(out),
    }
}

/// Answers a row on counts. Where it names no other call, the answer is the number of components and that of each
/// vertex's.
pub fn answer(row: &Row<'_>, given: &SomeLists, map: &HalfMap, out: &mut Reply) {
    match row.call {
        "faces" => match faces(out.alloc, map) {
            Ok(found) => put_walks(map, &found, out),
            Err(_) => tell_no_memory(out),
        },
        "lists" => count_all(row.args, out),
        "both" => put_both(given, map, out),
        _ => match components(out.alloc, map) {
            Ok(found) => {
                out.put_number(u64::from(found.count()));
                out.put_letter(':');
                for v in 0..map.n() {
                    out.put_one("", u64::from(found.of(VertexId(v))));
                }
            }
            Err(_) => tell_no_memory(out),
        },
    }
}
