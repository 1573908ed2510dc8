//! The boundary of a region: marks the edges that its closed walk passes an odd number of times.
ghost use Rattle.std.specs.Prelude.{◌≡◌, ◌<◌, ℕ, Some, length};
ghost use Rattle.map_theory.specs.Maps.{Dart, IsPlane};
ghost use Rattle.convex_peeling.specs.Polyhedral.{IsThreeConnected};
ghost use Rattle.half_edges.specs.Map.{IsLive, dart_at, id_bound};
ghost use Rattle.vertex_rounds.specs.Rounds.{dart_of};
ghost use Rattle.convex_faces.specs.Directions.{root_in, IsWoodIn};
ghost use Rattle.convex_counts.specs.Axes.{next, previous};
ghost use Rattle.convex_faces.specs.Passing.{Passes, PassesDart, PassesAxis, PassesOuter, PassesRest, IsOuterCorner};

use crate::wood::{Axis, ConvexWood};
use half_edges::{DartId, HalfMap, VertexId};

// Flips the marks of both darts of the edge of dart `d` in `marked`, which has a mark for each dart id.
fn pass(map: &HalfMap, marked: &mut [bool], d: DartId)
    requires live { IsLive map.now d.0 }
    requires marks { length marked.old ≡ id_bound map.now }
    ensures { PassesDart map.now d.0 marked.old marked.new }
{
    let twin = map.twin(d);
    marked[d.0 as usize] = !marked[d.0 as usize];
    marked[twin.0 as usize] = !marked[twin.0 as usize];
}

/// A convex realizer of a map, and a vertex from which its darts lead to the roots.
#[derive(Clone, Copy)]
pub(crate) struct WoodVertex<'a> {
    pub(crate) map: &'a HalfMap,
    pub(crate) wood: &'a ConvexWood,
    pub(crate) v: VertexId,
}

impl WoodVertex<'_> {
    // Flips in `marked`, by dart, both darts of each edge from this vertex along `axis` to the root of the axis.
    pub(crate) fn pass_axis(&self, marked: &mut [bool], axis: Axis)
        requires wood { (base : Dart) × IsWoodIn self.now.map.now base self.now.wood.now }
        requires vertex { self.now.v.0 < length self.now.map.now.lists }
        requires marks { length marked.old ≡ id_bound self.now.map.now }
        ensures { (base : Dart) (w : IsWoodIn self.now.map.now base self.now.wood.now) → PassesAxis self.now.map.now (root_in self.now.wood.now) w.head axis self.now.v.0 (root_in self.now.wood.now axis) marked.old marked.new }
    {
        let WoodVertex { map, wood, v } = *self;
        map.facts();
        let mut at = v;
        for passed in 0..1048576u32 {
            match wood.out(axis, at) {
                Some(d) => {
                    pass(map, marked, d);
                    at = map.head(d);
                }
                None => return,
            }
        }
        unreachable!()
    }
}

/// Two darts of the outer face of a map: the base, and the dart before it.
#[derive(Clone, Copy)]
pub(crate) struct OuterCorner<'a> {
    pub(crate) map: &'a HalfMap,
    pub(crate) base: DartId,
    pub(crate) before: DartId,
}

impl OuterCorner<'_> {
    // Flips in `marked` both darts of each outer edge from the head of `base` to the tail of `before`.
    fn pass_rest(&self, marked: &mut [bool])
        requires plane { IsPlane self.now.map.now.lists }
        requires three { IsThreeConnected self.now.map.now.lists }
        requires corner { IsOuterCorner self.now.map.now self.now.base.0 self.now.before.0 }
        requires marks { length marked.old ≡ id_bound self.now.map.now }
        ensures { PassesRest self.now.map.now self.now.base.0 self.now.before.0 marked.old marked.new }
    {
        let OuterCorner { map, base, before } = *self;
        map.facts();
        let ids = 2 * (map.m() + map.spare());
        let mut d = map.face_step(base);
        for passed in 0..ids {
            if d.0 == before.0 {
                return;
            }
            pass(map, marked, d);
            d = map.face_step(d);
        }
        unreachable!()
    }

    // Flips in `marked` both darts of each outer edge from the root of the axis before `axis` to that of the one after
    // it. The root of `axis` itself is not passed.
    pub(crate) fn pass_outer(&self, marked: &mut [bool], axis: Axis)
        requires plane { IsPlane self.now.map.now.lists }
        requires three { IsThreeConnected self.now.map.now.lists }
        requires corner { IsOuterCorner self.now.map.now self.now.base.0 self.now.before.0 }
        requires marks { length marked.old ≡ id_bound self.now.map.now }
        ensures { PassesOuter self.now.map.now self.now.base.0 self.now.before.0 axis marked.old marked.new }
    {
        let OuterCorner { map, base, before } = *self;
        map.facts();
        match axis {
            Axis::One => pass(map, marked, before),
            Axis::Two => self.pass_rest(marked),
            Axis::Three => pass(map, marked, base),
        }
    }
}
