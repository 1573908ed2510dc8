//! The public calls that complete a map to a triangulation: components are joined, then faces cut into triangles.
ghost use Rattle.std.specs.Prelude.{◌≡◌, ◌≤◌, ℕ, Some, IfOk, IfErr, OnOk, OnErr};
ghost use Rattle.map_theory.specs.Maps.{IsPlane, vertex_count};
ghost use Rattle.plane_laws.specs.Triangulations.{IsTriangulation};
ghost use Rattle.plane_laws.specs.MapEditsCompleted.{IsExtended};
ghost use Rattle.half_edges.specs.Map.{IsHalfMap, dart_at};
ghost use Rattle.conn_parts.specs.Parts.{ArePartsOf};

use crate::face_filling::fill;
use crate::joined_components::join_parts;
use conn_parts::{Parts, components};
use half_edges::HalfMap;
use std::alloc::{AllocError, Global};

/// Returns `map`, of genus zero with at least three vertices, with edges added until there are 3n - 6. Components are
/// joined first. Then each face is cut into triangles by ears: edges that join the neighbours of a corner.
///
/// Each old list is the new one without what is new in it, and all old darts keep their ids. When memory
/// runs out the map is handed back as it was. The time is linear in the vertices and edges: whether two
/// vertices are adjacent is looked up in the shorter one of two lists.
pub fn triangulate(alloc: Global, map: HalfMap) -> Result<HalfMap, (HalfMap, AllocError)>
    requires plane { IsPlane map.lists }
    requires some { 3 ≤ vertex_count map.lists }
    ensures triangulation { IfOk result (λ new. IsTriangulation new.lists) }
    ensures extended { IfOk result (λ new. IsExtended map.lists new.lists) }
    ensures ids { IfOk result (λ new. (d v u : ℕ) → dart_at map d ≡ Some (v, u) → dart_at new d ≡ Some (v, u)) }
    ensures known { IfOk result IsHalfMap }
    ensures err { IfErr result (λ e. e.0 ≡ map) }
{
    let parts = match components(alloc, &map) {
        Ok(parts) => parts,
        Err(e) => return Err((map, e)),
    };
    let mut map = map;
    match complete_parts(&mut map, &parts) {
        Ok(()) => Ok(map),
        Err(e) => Err((map, e)),
    }
}

/// Completes `map`, of genus zero with at least three vertices, in place as [`triangulate`] does; `parts` has its
/// components. It fails only when out of memory, and then leaves `map` as it was.
#[inline(always)]
pub fn complete_parts(map: &mut HalfMap, parts: &Parts) -> Result<(), AllocError>
    requires plane { IsPlane map.old.lists }
    requires some { 3 ≤ vertex_count map.old.lists }
    requires parts { ArePartsOf map.old.lists parts.now }
    ensures triangulation { OnOk result (IsTriangulation map.new.lists) }
    ensures extended { OnOk result (IsExtended map.old.lists map.new.lists) }
    ensures ids { OnOk result ((d v u : ℕ) → dart_at map.old d ≡ Some (v, u) → dart_at map.new d ≡ Some (v, u)) }
    ensures known { OnOk result (IsHalfMap map.new) }
    ensures err { OnErr result (map.new ≡ map.old) }
{
    let room = 3 * map.n() as u32 - 6 - map.m();
    if room == 0 {
        return Ok(());
    }
    match map.reserve_edges(room) {
        Ok(()) => {
            join_parts(map, parts);
            fill(map);
            Ok(())
        }
        Err(e) => Err(e),
    }
}
