//! The public calls that check whether a drawing is convex over a base dart.
ghost use Rattle.std.specs.Prelude.{IfOk};
ghost use Rattle.half_edges.specs.Map.{IsLive};
ghost use Rattle.plane_drawings.specs.Drawing.{HasPlaces};
ghost use Rattle.vertex_rounds.specs.Rounds.{dart_of};
ghost use Rattle.convex_check.specs.Verdicts.{IsConvexVerdict};

use crate::ConvexVerdict;
use crate::drawing::BasedDrawing;
use euler_faces::faces;
use half_edges::{DartId, HalfMap};
use pg_plane::{GridFigure, Points};
use std::alloc::{AllocError, Global};

/// Checks whether the drawing of `map` at `points` is convex over `base`. Returns the least three consecutive vertices
/// of the walk of a face other than that of `base` that turn to the right. Otherwise returns `OuterBent` where no three
/// vertices of the base's face are the corners of a triangle on whose sides all its vertices lie. Else returns `Yes`.
///
/// `base` is live, there is one point for each vertex, and no coordinate is beyond 2^20 in size; whether the drawing is
/// plane is not looked at. It fails only when out of memory. Time and memory are linear in the vertices and darts.
pub fn check_convex_points(
    alloc: Global,
    map: &HalfMap,
    base: DartId,
    points: &Points,
) -> Result<ConvexVerdict, AllocError>
    requires base { IsLive map.now base.0 }
    requires places { HasPlaces map.now.lists points.now }
    ensures { IfOk result (IsConvexVerdict map.now.lists points.now (dart_of map.now base.0)) }
{
    let faces = faces(alloc, map)?;
    let drawing = BasedDrawing { map, points, base };
    if let Some((a, b, c)) = drawing.first_bent(&faces) {
        return Ok(ConvexVerdict::Bent(a, b, c));
    }
    if drawing.is_outer_convex(alloc, &faces)? {
        Ok(ConvexVerdict::Yes)
    } else {
        Ok(ConvexVerdict::OuterBent)
    }
}

/// Checks a figure as [`check_convex_points`] does its points; the grid of `fig` is ignored.
pub fn check_convex(
    alloc: Global,
    map: &HalfMap,
    base: DartId,
    fig: &GridFigure,
) -> Result<ConvexVerdict, AllocError>
    requires base { IsLive map.now base.0 }
    requires places { HasPlaces map.now.lists fig.now.points }
    ensures { IfOk result (IsConvexVerdict map.now.lists fig.now.points (dart_of map.now base.0)) }
{
    check_convex_points(alloc, map, base, &fig.points)
}
