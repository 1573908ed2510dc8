//! Test rows on edges added to a map and removed from it.
ghost use Rattle.std.specs.Prelude.{◌≡◌, ◌<◌, Some, IfSome};
ghost use Rattle.map_theory.specs.Maps.{vertex_count};
ghost use Rattle.half_edges.specs.Edges.{IsCorner, corner_place};

use half_edges::{Corner, DartId, HalfMap, Rotations, VertexId};
use row_texts::fault_texts::tell_no_memory;
use row_texts::lists::put_lists;
use row_texts::maps::{dart_between, first_base, put_dart};
use row_texts::reply::Reply;
use row_texts::row_arguments::{halves, number, pair};

// Returns the corner at `v` after `entry` in its list, or where `v` is isolated and there is no entry. Returns None
// where there is no such corner.
fn corner_at(map: &HalfMap, v: u16, entry: Option<u16>) -> Option<Corner>
    ensures vertex { IfSome result (λ _. v < vertex_count map.now.lists) }
    ensures corner { IfSome result (λ corner. IsCorner map.now corner) }
    ensures place { IfSome result (λ corner. corner_place map.now corner ≡ Some (v, entry)) }
{
    if v >= map.n() {
        return None;
    }
    match entry {
        Some(u) => match dart_between(map, v, u) {
            Some(d) => Some(Corner::After(d)),
            None => None,
        },
        None => match map.first_dart(VertexId(v)) {
            Some(_) => None,
            None => Some(Corner::Only(VertexId(v))),
        },
    }
}

// Adds an edge between two vertices, each with the list entry after which it goes. Returns its first dart, or None
// where there is no room or no such edge can be.
fn join(
    map: &mut HalfMap,
    (u, behind_u): (u16, Option<u16>),
    (v, behind_v): (u16, Option<u16>),
) -> Option<DartId> {
    if map.spare() < 1 || u == v {
        return None;
    }
    let at_u = corner_at(map, u, behind_u)?;
    let at_v = corner_at(map, v, behind_v)?;
    match map.dart_of(VertexId(u), VertexId(v)) {
        Some(_) => None,
        None => Some(map.add_edge(at_u, at_v)),
    }
}

// Parses a vertex, and the list entry after `>` where there is one.
fn place_of(text: &str) -> (u16, Option<u16>) {
    match text.split_once('>') {
        Some((v, u)) => (number(v), Some(number(u))),
        None => (number(text), None),
    }
}

// Adds the edge whose two ends `places` names, with the entries after which they go. Returns its first dart, or None
// where it cannot be added.
fn join_places(map: &mut HalfMap, places: &str) -> Option<DartId> {
    let (first, second) = halves(places);
    join(map, place_of(first), place_of(second))
}

// Adds an edge and removes it again. Returns false where it cannot be added.
fn add_and_remove(map: &mut HalfMap, places: &str) -> bool {
    match join_places(map, places) {
        Some(d) if map.is_live(d) => {
            map.remove_edge(d);
            true
        }
        _ => false,
    }
}

// Adds and removes an edge a thousand times, and appends to `out` how often that succeeded.
fn thousand_turns(map: &mut HalfMap, places: &str, out: &mut Reply) {
    let mut count: u64 = 0;
    for _ in 0..1000 {
        if add_and_remove(map, places) {
            count = count.wrapping_add(1);
        }
    }
    out.put_number(count);
    out.put(" turns");
}

// Adds an edge from vertex 0 to each other vertex, which is isolated, and appends to `out` the number of edges added.
fn spokes(map: &mut HalfMap, out: &mut Reply) {
    let mut count: u64 = 0;
    for v in 1..map.n() {
        let behind = match first_base(map) {
            Some(d) => Some(map.head(d).0),
            None => None,
        };
        if join(map, (0, behind), (v, None)).is_some() {
            count = count.wrapping_add(1);
        }
    }
    out.put_number(count);
    out.put(" spokes");
}

// Edits `map` once, as `text` says, and appends the outcome to `out`.
fn edit(map: &mut HalfMap, text: &str, out: &mut Reply) {
    let (word, rest) = halves(text);
    match word {
        "reserve" => match map.reserve_edges(u32::from(number(rest))) {
            Ok(()) => out.put("room"),
            Err(_) => tell_no_memory(out),
        },
        "add" => match join_places(map, rest) {
            Some(d) => put_dart("", map, d, out),
            None => out.put("refused"),
        },
        "remove" => {
            let (u, v) = pair(rest);
            match dart_between(map, u, v) {
                Some(d) => {
                    let removed = map.remove_edge(d);
                    out.put_numbers(&[removed.a.0, removed.b.0]);
                }
                None => out.put("refused"),
            }
        }
        "turn" => thousand_turns(map, rest, out),
        _ => spokes(map, out),
    }
}

// Appends `lists` to `out`, or for 20 lists or more their number of entries and the lengths of the first and the last.
fn put_some(lists: &Rotations, out: &mut Reply) {
    let n = lists.len();
    if n < 20 {
        return put_lists(lists, out);
    }
    out.put_number(lists.total() as u64);
    out.put_one(" entries,", lists.list(0).len() as u64);
    out.put_one(" of vertex 0 and", lists.list(n - 1).len() as u64);
    out.put(" of the last");
}

/// Makes the `edits` in `map`, and appends to `out` the size and room after each, and the lists in the end.
pub fn answer(map: &mut HalfMap, edits: &str, out: &mut Reply) {
    for text in edits.split(';') {
        edit(map, text, out);
        out.put_one(" (m", u64::from(map.m()));
        out.put_one(" spare", u64::from(map.spare()));
        out.put("), ");
    }
    match map.rotations(out.alloc) {
        Ok(lists) => put_some(&lists, out),
        Err(_) => tell_no_memory(out),
    }
}
