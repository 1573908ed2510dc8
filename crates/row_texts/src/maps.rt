//! Darts of a map found by their ends, and darts and sizes of maps written as texts.
ghost use Rattle.std.specs.Prelude.{◌≡◌, [], IfSome, MatchOption, Some};
ghost use Rattle.map_theory.specs.Maps.{HasDart, list_of};
ghost use Rattle.half_edges.specs.Map.{IsLive, dart_at, first_dart};

use crate::reply::Reply;
use half_edges::{DartId, HalfMap, VertexId};

/// Returns the dart of a map from one vertex to another, if they are neighbours.
pub fn dart_between(map: &HalfMap, u: u16, v: u16) -> Option<DartId>
    ensures live { IfSome result (λ d. IsLive map.now d.0) }
    ensures ends { MatchOption result (¬ HasDart map.now.lists u v) (λ d. dart_at map.now d.0 ≡ Some (u, v)) }
{
    if u >= map.n() || v >= map.n() {
        return None;
    }
    map.dart_of(VertexId(u), VertexId(v))
}

/// Returns the first dart of vertex 0, if it has a neighbour.
pub fn first_base(map: &HalfMap) -> Option<DartId>
    ensures live { IfSome result (λ d. IsLive map.now d.0) }
    ensures first { MatchOption result (list_of map.now.lists 0 ≡ []) (λ d. dart_at map.now d.0 ≡ Some (first_dart map.now.lists 0)) }
{
    if map.n() == 0 {
        return None;
    }
    map.first_dart(VertexId(0))
}

/// Writes a dart by its ends, behind a text.
pub fn put_dart(text: &str, map: &HalfMap, d: DartId, out: &mut Reply) {
    out.put(text);
    if map.is_live(d) {
        out.put_number(u64::from(map.tail(d).0));
        out.put_one("", u64::from(map.head(d).0));
    } else {
        out.put("none");
    }
}

/// Writes the numbers of vertices and edges of a map.
pub fn put_size(map: &HalfMap, out: &mut Reply) {
    out.put_one("n", u64::from(map.n()));
    out.put_one(" m", u64::from(map.m()));
}
