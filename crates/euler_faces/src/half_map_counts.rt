//! Counts a half-edge map whose components are counted already, by walks of its faces.
ghost use Rattle.std.specs.Prelude.{◌≡◌, ◌≤◌, IfOk};
ghost use Rattle.map_theory.specs.Maps.{vertex_count, edge_count, face_count, component_count, isolated_count};

use crate::euler_counts::EulerCount;
use crate::found_faces::faces;
use half_edges::{HalfMap, VertexId};
use std::alloc::{AllocError, Global};

// Returns the number of isolated vertices of `map`.
fn count_isolated(map: &HalfMap) -> u32
    ensures count { result ≡ isolated_count map.now.lists }
    ensures few { result ≤ vertex_count map.now.lists }
{
    let mut count = 0;
    for v in 0..map.n() {
        if map.degree(VertexId(v)) == 0 {
            count += 1;
        }
    }
    count
}

/// Returns the counts of `map` by the walks of its faces; `components` is the number of its components. The time and
/// the memory are linear in its darts. It fails only when out of memory.
pub fn euler_by_components(
    alloc: Global,
    map: &HalfMap,
    components: u16,
) -> Result<EulerCount, AllocError>
    requires { components ≡ component_count map.now.lists }
    ensures n { IfOk result (λ count. count.n ≡ vertex_count map.now.lists) }
    ensures m { IfOk result (λ count. count.m ≡ edge_count map.now.lists) }
    ensures f { IfOk result (λ count. count.f ≡ face_count map.now.lists) }
    ensures c { IfOk result (λ count. count.c ≡ component_count map.now.lists) }
{
    let faces = faces(alloc, map)?;
    let isolated = count_isolated(map);
    Ok(EulerCount {
        n: u32::from(map.n()),
        m: map.m(),
        f: faces.count() + isolated,
        c: u32::from(components),
    })
}
