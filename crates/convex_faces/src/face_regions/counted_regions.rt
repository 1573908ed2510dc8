//! The public call that counts the faces in a region of a vertex.
ghost use Rattle.std.specs.Prelude.{◌≡◌, ◌<◌, ℕ, false, Some, length, IfOk};
ghost use Rattle.map_theory.specs.Maps.{Dart, HasDart, IsPlane};
ghost use Rattle.convex_peeling.specs.Polyhedral.{IsThreeConnected};
ghost use Rattle.half_edges.specs.Map.{dart_at, id_bound};
ghost use Rattle.euler_faces.specs.Numbers.{mark_at};
ghost use Rattle.convex_counts.specs.Axes.{next, previous};
ghost use Rattle.convex_faces.specs.Directions.{root_in, IsWoodIn};
ghost use Rattle.convex_laws.specs.Regions.{IsFaceRegion};

use crate::face_regions::region_boundary::{OuterCorner, WoodVertex};
use crate::walk_sides::inside_count;
use crate::wood::{Axis, ConvexWood};
use half_edges::{DartId, HalfMap, VertexId};
use std::alloc::{AllocError, Global};

// Returns the axis after `axis` and the one before it, cyclically.
fn axes_beside(axis: Axis) -> (Axis, Axis)
    ensures behind { result.0 ≡ next axis }
    ensures before { result.1 ≡ previous axis }
{
    match axis {
        Axis::One => (Axis::Two, Axis::Three),
        Axis::Two => (Axis::Three, Axis::One),
        Axis::Three => (Axis::One, Axis::Two),
    }
}

impl WoodVertex<'_> {
    // Returns the dart from the root of axis `from` to that of `to`, which are adjacent.
    fn dart_between(&self, from: Axis, to: Axis) -> DartId
        requires { HasDart self.now.map.now.lists (root_in self.now.wood.now from) (root_in self.now.wood.now to) }
        ensures { dart_at self.now.map.now result.0 ≡ Some (root_in self.now.wood.now from, root_in self.now.wood.now to) }
    {
        match self.map.dart_of(self.wood.root(from), self.wood.root(to)) {
            Some(d) => d,
            None => unreachable!(),
        }
    }

    // Returns what [`face_region`] returns for this vertex and `axis`. It marks in `marked`, by dart id and all unset
    // at first, the edges that the region's boundary passes an odd number of times.
    fn count_with(&self, alloc: Global, marked: &mut [bool], axis: Axis) -> Result<u32, AllocError>
        requires plane { IsPlane self.now.map.now.lists }
        requires three { IsThreeConnected self.now.map.now.lists }
        requires wood { (base : Dart) × IsWoodIn self.now.map.now base self.now.wood.now }
        requires vertex { self.now.v.0 < length self.now.map.now.lists }
        requires marks { length marked.old ≡ id_bound self.now.map.now }
        requires unset { (i : ℕ) → mark_at marked.old i ≡ false }
        ensures { IfOk result (λ k. (start : Dart) (w : IsWoodIn self.now.map.now start self.now.wood.now) → IsFaceRegion self.now.map.now.lists start (root_in self.now.wood.now) w.head axis self.now.v.0 k) }
    {
        let map = self.map;
        let base = self.dart_between(Axis::Two, Axis::One);
        let before = self.dart_between(Axis::Three, Axis::Two);
        let corner = OuterCorner { map, base, before };
        let (ahead, back) = axes_beside(axis);
        self.pass_axis(marked, ahead);
        corner.pass_outer(marked, axis);
        self.pass_axis(marked, back);
        inside_count(alloc, map, marked, base)
    }
}

/// Returns the number of faces in the region of `v` for `axis` of the convex realizer `wood`.
///
/// The region is bounded by a closed path from the vertex along the next axis to its root, over the outer face, and
/// back along the axis before. The part on the outer face does not pass the root of the axis itself. A face other than
/// the outer one is inside if a chain of faces from there steps over the path an odd number of times. Each face of a
/// chain shares an edge with the next. An edge that the path passes twice counts twice.
///
/// Fails only when out of memory. Map and wood stay as they are. The time is linear in the map: a search of its faces.
///
/// Source: Felsner, Convex drawings of planar graphs and the order dimension of 3-polytopes, 2001.
pub fn face_region(
    alloc: Global,
    map: &HalfMap,
    wood: &ConvexWood,
    v: VertexId,
    axis: Axis,
) -> Result<u32, AllocError>
    requires plane { IsPlane map.now.lists }
    requires three { IsThreeConnected map.now.lists }
    requires wood { (base : Dart) × IsWoodIn map.now base wood.now }
    requires vertex { v.0 < length map.now.lists }
    ensures { IfOk result (λ k. (base : Dart) (w : IsWoodIn map.now base wood.now) → IsFaceRegion map.now.lists base (root_in wood.now) w.head axis v.0 k) }
{
    let ids = 2 * (map.m() as usize + map.spare() as usize);
    let mut marked = vec![in alloc; false; ids]?;
    WoodVertex { map, wood, v }.count_with(alloc, &mut marked, axis)
}
