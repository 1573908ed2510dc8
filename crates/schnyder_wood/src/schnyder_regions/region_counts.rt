//! The number of vertices of a region of a Schnyder wood, by a search of the faces.
ghost use Rattle.std.specs.Prelude.{◌≡◌, ◌<◌, ◌*◌, ℕ, false, true, Some, length, IfOk};
ghost use Rattle.map_theory.specs.Maps.{Dart, HasDart};
ghost use Rattle.half_edges.specs.Map.{IsLive, dart_at, id_bound};
ghost use Rattle.wood_runs.specs.Parents.{Colour as TreeColour, one, two};
ghost use Rattle.euler_faces.specs.Numbers.{mark_at};
ghost use Rattle.wood_laws.specs.Regions.{IsRegionCount};
ghost use Rattle.schnyder_wood.specs.Parents.{kind, root_in, parent_in, IsInnerIn, IsWoodOf};
ghost use Rattle.schnyder_wood.specs.Boundaries.{base_in};
ghost use Rattle.schnyder_wood.specs.ClosedPaths.{IsVertexOf};
ghost use Rattle.schnyder_wood.specs.Search.{IsCrossed, HasEdges};
ghost use Rattle.schnyder_wood.specs.Counting.{HasOdd, MarksMore, HasVertices};

use crate::schnyder_regions::boundary_paths::closed_path;
use crate::schnyder_regions::closed_paths::ClosedPath;
use crate::{Colour, Wood};
use euler_faces::mark_reached;
use half_edges::{DartId, HalfMap};
use map_lists::VertexId;
use std::alloc::{AllocError, Global};

// A region of a map by its closed path, and the dart at which the search of the faces starts.
#[derive(Clone, Copy)]
struct Region<'a> {
    map: &'a HalfMap,
    path: &'a ClosedPath,
    start: DartId,
    ghost all: { length path.now.nexts.items ≡ length map.now.lists },
    ghost live: { IsLive map.now start.0 },
}

impl Region<'_> {
    // Does nothing. By its contract a proof learns that the closed path notes all vertices.
    fn facts(&self)
        ensures { length self.now.path.now.nexts.items ≡ length self.now.map.now.lists }
    {}

    // Says whether the edge of the dart `d` is on the closed path.
    fn crosses(&self, d: DartId) -> bool
        requires { IsLive self.now.map.now d.0 }
        ensures { IsCrossed self.now.map.now self.now.path.now d.0 result }
    {
        self.facts();
        self.path.has_edge(self.map.tail(d).0, self.map.head(d).0)
    }

    // Marks in `inside`, by vertex, the tails of all darts d whose face is reached by an odd number of crossings. These
    // are the darts for which entry 2d + 1 of `met` is set.
    fn mark_tails(&self, met: &[bool], inside: &mut [bool])
        requires marks { length met.now ≡ 2 * id_bound self.now.map.now }
        requires count { length inside.old ≡ length self.now.map.now.lists }
        ensures { MarksMore (HasOdd self.now.map.now met.now (id_bound self.now.map.now)) inside.old inside.new }
    {
        let ids = 2 * (self.map.m() + self.map.spare());
        let region = *self;
        for d in 0..ids {
            let odd = met[2 * (d as usize) + 1];
            if !odd {
                continue;
            }
            if !region.map.is_live(DartId(d)) {
                continue;
            }
            let v = region.map.tail(DartId(d));
            inside[v.0 as usize] = true;
        }
    }

    // Marks in `inside` the vertices on the closed path.
    fn mark_boundary(&self, inside: &mut [bool])
        requires { length inside.old ≡ length self.now.map.now.lists }
        ensures { MarksMore (IsVertexOf self.now.path.now) inside.old inside.new }
    {
        self.facts();
        let region = *self;
        for u in 0..self.map.n() {
            if !region.path.has_vertex(u) {
                continue;
            }
            inside[u as usize] = true;
        }
    }

    // Returns the number of vertices of the region. The marks are unset: two in `met` for each dart id (an even or an
    // odd number of crossings reaches its face), and one in `inside` for each vertex. Fails only when out of memory.
    fn count(&self, alloc: Global, met: &mut [bool], inside: &mut [bool]) -> Result<u32, AllocError>
        requires marks { length met.old ≡ 2 * id_bound self.now.map.now }
        requires unset { (i : ℕ) → mark_at met.old i ≡ false }
        requires count { length inside.old ≡ length self.now.map.now.lists }
        requires none { (i : ℕ) → mark_at inside.old i ≡ false }
        ensures { IfOk result (λ k. (base : Dart) (parent : TreeColour → ℕ → ℕ) (c : TreeColour) (v : ℕ) → dart_at self.now.map.now self.now.start.0 ≡ Some base → HasEdges self.now.map.now.lists base parent c v self.now.path.now → HasVertices self.now.map.now.lists base parent c v self.now.path.now
            → IsRegionCount self.now.map.now.lists base parent c v k) }
    {
        let region = *self;
        mark_reached(alloc, self.map, met, self.start, |d| region.crosses(d))?;
        self.mark_tails(met, inside);
        self.mark_boundary(inside);
        let mut count = 0;
        for u in 0..self.map.n() {
            count += inside[u as usize] as u32;
        }
        Ok(count)
    }
}

// Returns the dart of `map` from root two to root one of `wood`.
fn base_dart(map: &HalfMap, wood: &Wood) -> DartId
    requires { HasDart map.now.lists (root_in wood.now two) (root_in wood.now one) }
    ensures { dart_at map.now result.0 ≡ Some (base_in wood.now) }
{
    match map.dart_of(wood.root(Colour::Two), wood.root(Colour::One)) {
        Some(d) => d,
        None => unreachable!(),
    }
}

/// Returns the number of vertices in the region of the inner vertex `v` opposite `colour`'s root, boundary included.
///
/// The region is bounded by the paths of the two other colours and by the outer edge between their roots. It has the
/// vertices on these, and those on the faces inside. A face is inside if a chain of faces from the outer one, each
/// sharing an edge with the next, comes there over an odd number of these edges.
///
/// `wood` must be a Schnyder wood of `tri`; both stay as they are. It fails only when out of memory. The time is linear
/// in the map: a search goes over its faces.
///
/// Source: Schnyder, Embedding planar graphs on the grid, 1990.
pub fn region_count(
    alloc: Global,
    tri: &HalfMap,
    wood: &Wood,
    v: VertexId,
    colour: Colour,
) -> Result<u32, AllocError>
    requires wood { (base : Dart) × HasDart tri.now.lists base.0 base.1 × IsWoodOf tri.now.lists base wood.now }
    requires inner { IsInnerIn wood.now v.0 }
    ensures { IfOk result (λ k. (base : Dart) → IsWoodOf tri.now.lists base wood.now → IsRegionCount tri.now.lists base (parent_in wood.now) (kind colour) v.0 k) }
{
    wood.facts();
    let path = closed_path(alloc, wood, v, colour)?;
    let start = base_dart(tri, wood);
    let region = Region {
        map: tri,
        path: &path,
        start,
    };
    let ids = 2 * (tri.m() as usize + tri.spare() as usize);
    let mut met = vec![in alloc; false; 2 * ids]?;
    let mut inside = vec![in alloc; false; tri.n() as usize]?;
    region.count(alloc, &mut met, &mut inside)
}
