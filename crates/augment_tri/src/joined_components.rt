//! Joins the components of a map by edges, so that it becomes connected.
ghost use Rattle.std.specs.Prelude.{◌≡◌, ◌≢◌, ◌+◌, ◌<◌, ◌≤◌, ℕ, length};
ghost use Rattle.map_theory.specs.Maps.{HasDart, vertex_count, component_count};
ghost use Rattle.half_edges.specs.Map.{IsHalfMap, dart_at};
ghost use Rattle.conn_parts.specs.Parts.{ArePartsOf};
ghost use Rattle.augment_tri.specs.Growing.{IsCornerOf, IsPutIn, IsRoomy, IsGrown};

use conn_parts::Parts;
use half_edges::{Corner, HalfMap, VertexId};

// Returns a corner of `v` at which an edge may be added: that after its first dart, or the only one where it has none.
fn corner_of(map: &HalfMap, v: VertexId) -> Corner
    requires { v.0 < vertex_count map.now.lists }
    ensures { IsCornerOf map.now result v.0 }
{
    match map.first_dart(v) {
        Some(d) => Corner::After(d),
        None => Corner::Only(v),
    }
}

// Adds an edge between `u` and `v`, which are distinct and not adjacent, to `map`, which has room for it.
fn join(map: &mut HalfMap, u: VertexId, v: VertexId)
    requires spare { 1 ≤ map.old.spare }
    requires u_in { u.0 < vertex_count map.old.lists }
    requires v_in { v.0 < vertex_count map.old.lists }
    requires two_vertices { u.0 ≢ v.0 }
    requires not_adjacent { ¬ HasDart map.old.lists u.0 v.0 }
    ensures put { IsPutIn map.old.lists map.new.lists u.0 v.0 }
    ensures spare { map.new.spare + 1 ≡ map.old.spare }
    ensures ids { (e w z : ℕ) → dart_at map.old e ≡ Some (w, z) → dart_at map.new e ≡ Some (w, z) }
    ensures known { IsHalfMap map.new }
{
    let at_u = corner_of(map, u);
    let at_v = corner_of(map, v);
    map.add_edge(at_u, at_v);
}

// Adds to `map` an edge from vertex 0 to the least vertex of each other component; `parts` has the components. `map`
// has genus zero, n at least 3 and room for 3n - 6 edges.
pub(crate) fn join_parts(map: &mut HalfMap, parts: &Parts)
    requires roomy { IsRoomy map.old }
    requires parts { ArePartsOf map.old.lists parts.now }
    ensures roomy { IsRoomy map.new }
    ensures grown { IsGrown map.old map.new }
    ensures one { component_count map.new.lists ≡ 1 }
{
    if parts.count() == 1 {
        return;
    }
    let mut joined = 1;
    for v in 1..map.n() {
        if parts.of(VertexId(v)) == joined {
            join(map, VertexId(0), VertexId(v));
            joined += 1;
        }
    }
}
