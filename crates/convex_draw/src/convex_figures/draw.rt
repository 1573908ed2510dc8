//! The public call `convex_figure`: the convex figure of a record, or the refusal of the record.
ghost use Rattle.std.specs.Prelude.{◌≡◌, ◌<◌, length, Some, IfOk, IfErr, OnOk};
ghost use Rattle.euler_faces.specs.FaceWalks.{AreFaces};
ghost use Rattle.half_edges.specs.Map.{IsLive, dart_at, first_dart as first_of};
ghost use Rattle.map_theory.specs.Maps.{IsPlane};
ghost use Rattle.convex_peeling.specs.Polyhedral.{IsThreeConnected};
ghost use Rattle.refusals.specs.Conditions.{IfRefused};
ghost use Rattle.convex_class.specs.Convexity.{BreaksConvex};
ghost use Rattle.convex_draw.specs.Figures.{IsConvexFigure};

use crate::figure_by_faces;
use convex_class::convex_maps::convex_map;
use half_edges::{DartId, HalfMap, Rotations, VertexId};
use pg_plane::GridFigure;
use refusals::Unserved;
use std::alloc::{AllocError, Global};

// Returns the dart from vertex 0 of the three-connected `map` to the first of its list.
fn first_dart(map: &HalfMap) -> DartId
    requires three { IsThreeConnected map.now.lists }
    ensures live { IsLive map.now result.0 }
    ensures first { dart_at map.now result.0 ≡ Some (first_of map.now.lists 0) }
{
    match map.first_dart(VertexId(0)) {
        Some(d) => d,
        None => unreachable!(),
    }
}

/// Returns the convex figure of a record with these `lists`, which are from 1 to 4095. It has a point for each vertex,
/// so that each edge is a straight segment, no two cross and each list is kept clockwise. No inner face bends inwards.
/// The outer face, that of the dart from vertex 0 to the first of its list, is a triangle with flat angles. The grid is
/// f - 1 by f - 1, for f faces.
///
/// `Err` names the first condition that the lists break, or says that memory ran out. First come the four faults of a
/// map, each with the least vertices. Then come fewer than four vertices, a genus above zero, more than one component,
/// a cut vertex, the least, and a separating pair, the least.
///
/// Source: Felsner, Convex drawings of planar graphs and the order dimension of 3-polytopes, 2001.
pub fn convex_figure(alloc: Global, lists: &Rotations) -> Result<GridFigure, Unserved>
    requires some_list { 0 < length lists.now }
    ensures figure { IfOk result (IsConvexFigure lists.now) }
    ensures plane { OnOk result (IsPlane lists.now) }
    ensures served { OnOk result (IsThreeConnected lists.now) }
    ensures refused { IfErr result (IfRefused (BreaksConvex lists.now)) }
{
    let found = convex_map(alloc, lists)?;
    let base = first_dart(&found.map);
    let figure = figure_by_faces(alloc, &found.map, lists, &found.faces, base)?;
    Ok(figure)
}
