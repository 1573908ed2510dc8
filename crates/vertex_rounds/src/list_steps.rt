//! Steps of a search round a vertex: the next dart of its list, up to the last, and a test against the least vertex.
ghost use Rattle.std.specs.Prelude.{◌≡◌, ◌+◌, ◌<◌, ◌↔◌, ℕ, length, IsTrue, Some, MatchOption};
ghost use Rattle.map_theory.specs.Maps.{list_of, place_of};
ghost use Rattle.half_edges.specs.Map.{IsHalfMap, IsLive, dart_at};
ghost use Rattle.vertex_rounds.specs.Rounds.{IsLaterDart, IsBelow};

use half_edges::{DartId, HalfMap, VertexId};

/// Returns the dart to the next entry of the list in which `d` is, or None where `d` is the last one.
pub fn later_dart(map: &HalfMap, d: DartId) -> Option<DartId>
    requires live { IsLive map.now d.0 }
    ensures { (v u : ℕ) → dart_at map.now d.0 ≡ Some (v, u)
        → MatchOption result (place_of u (list_of map.now.lists v) + 1 ≡ length (list_of map.now.lists v))
        (λ e. IsLaterDart map.now v u e.0) }
{
    let next = map.next(d);
    match map.first_dart(map.tail(d)) {
        Some(first) => { if next.0 == first.0 { None } else { Some(next) } }
        None => None,
    }
}

/// Says whether `v` is less than `least`, the least vertex found so far, or none was found.
pub fn is_below(v: VertexId, least: Option<VertexId>) -> bool
    ensures { IsTrue result ↔ IsBelow v.0 least }
{
    match least {
        Some(u) => v.0 < u.0,
        None => true,
    }
}
