//! The check that the face of a base dart is the outer face of a drawing, by the signed areas of the faces.
ghost use Rattle.std.specs.Prelude.{◌≡◌, ◌↔◌, length, IsTrue, Some, IfOk};
ghost use Rattle.map_theory.specs.Maps.{component_count};
ghost use Rattle.half_edges.specs.Map.{IsLive, first_dart};
ghost use Rattle.euler_faces.specs.FaceWalks.{AreFaces};
ghost use Rattle.plane_drawings.specs.Drawing.{HasPlaces};
ghost use Rattle.vertex_rounds.specs.Rounds.{HoldsAt, dart_of};
ghost use Rattle.draw_check.specs.FaceSums.{HasLowSum};
ghost use Rattle.draw_check.specs.Outer.{IsOuterVerdict};

use crate::OuterVerdict;
use crate::drawing::PointDrawing;
use euler_faces::{Faces, euler, faces};
use half_edges::{DartId, HalfMap};
use pg_plane::{GridFigure, Points};
use std::alloc::{AllocError, Global};
use vertex_rounds::first_dart;

/// A map with its faces, twice the signed area of each, and a base dart.
#[derive(Clone, Copy)]
struct Summed<'a> {
    map: &'a HalfMap,
    faces: &'a Faces,
    sums: &'a [i128],
    base: DartId,
    ghost count: { length sums.now ≡ length faces.now },
    ghost live: { IsLive map.now base.0 },
}

impl Summed<'_> {
    // Says whether dart `d` lies on another face than the base dart, and the area of the face of `d` is not positive.
    fn has_low_sum(&self, d: DartId) -> bool
        requires faces { AreFaces self.now.map.now self.now.faces.now }
        requires live { IsLive self.now.map.now d.0 }
        ensures { IsTrue result ↔ HoldsAt self.now.map.now (HasLowSum self.now.map.now self.now.faces.now self.now.sums.now self.now.base.0) d.0 }
    {
        let outer = self.faces.of_dart(self.base);
        let face = self.faces.of_dart(d);
        face.0 != outer.0 && self.sums[face.0 as usize] <= 0
    }
}

/// Returns the verdict of `check_outer` for a connected `map`, without counting its components. `base` is live, and
/// there is one point for each vertex, with no coordinate beyond 2^20 in size. It fails only when out of memory.
pub fn check_outer_connected(
    alloc: Global,
    map: &HalfMap,
    base: DartId,
    points: &Points,
) -> Result<OuterVerdict, AllocError>
    requires base { IsLive map.now base.0 }
    requires places { HasPlaces map.now.lists points.now }
    requires connected { component_count map.now.lists ≡ 1 }
    ensures { IfOk result (IsOuterVerdict map.now.lists points.now (dart_of map.now base.0)) }
{
    let faces = faces(alloc, map)?;
    let sums = PointDrawing { map, points }.face_sums(alloc, &faces)?;
    let summed = Summed {
        map,
        faces: &faces,
        sums: &sums,
        base,
    };
    match first_dart(map, |d| summed.has_low_sum(d)) {
        Some((v, u)) => Ok(OuterVerdict::Inside(v, u)),
        None => Ok(OuterVerdict::Yes),
    }
}

/// Returns the least dart, by its tail and then by its head, whose face is not that of `base` and has no positive area.
/// It is `Yes` where there is none, or the map is not connected.
///
/// Twice the area of a face is the sum of a.x * b.y - b.x * a.y over its darts from a to b, in 128 bits. `base` is
/// live, `fig` has one point for each vertex, and no coordinate is beyond 2^20 in size; its grid is not looked at. It
/// fails only when out of memory. The time and the memory are linear in the vertices and the darts.
pub fn check_outer(
    alloc: Global,
    map: &HalfMap,
    base: DartId,
    fig: &GridFigure,
) -> Result<OuterVerdict, AllocError>
    requires base { IsLive map.now base.0 }
    requires places { HasPlaces map.now.lists fig.now.points }
    ensures { IfOk result (IsOuterVerdict map.now.lists fig.now.points (dart_of map.now base.0)) }
{
    let count = euler(alloc, map)?;
    if count.c == 1 {
        check_outer_connected(alloc, map, base, &fig.points)
    } else {
        Ok(OuterVerdict::Yes)
    }
}
