//! The public calls that draw a three-connected map: its construction sequence, the points, and the square grid.
ghost use Rattle.std.specs.Prelude.{◌≡◌, ◌<◌, ◌≤◌, ◌+◌, ◌-◌, ℕ, length, pos, Some, IfOk};
ghost use Rattle.map_theory.specs.Maps.{IsPlane, vertex_count, face_count, component_count};
ghost use Rattle.convex_peeling.specs.Polyhedral.{IsThreeConnected};
ghost use Rattle.euler_faces.specs.FaceWalks.{AreFaces};
ghost use Rattle.half_edges.specs.Map.{IsLive, dart_at};
ghost use Rattle.convex_draw.specs.Grids.{IsConvexGrid};
ghost use Rattle.convex_draw.specs.RunPoints.{AreRunPoints};

use crate::convex_points::{FaceRun, coordinate, count_points};
use convex_orders::rows_by_faces;
use euler_faces::{Faces, faces};
use half_edges::{DartId, HalfMap, Rotations};
use pg_plane::{GridFigure, Points};
use std::alloc::{AllocError, Global};

// Returns the number of faces of `map`, connected and of genus zero, without the outer one: the side of the grid.
fn side_of(map: &HalfMap) -> u32
    requires plane { IsPlane map.now.lists }
    requires connected { component_count map.now.lists ≡ 1 }
    requires vertices { 0 < vertex_count map.now.lists }
    requires faces { 2 ≤ face_count map.now.lists }
    ensures { result + 1 ≡ face_count map.now.lists }
{
    map.m() - map.n() as u32 + 1
}

// Returns the figure with these `points` in a grid of width and height `side`, below 2^20.
pub(crate) fn in_square(points: Points, side: u32) -> GridFigure
    requires { side < 1048576 }
    ensures points { result.points ≡ points }
    ensures width { result.width ≡ pos side }
    ensures height { result.height ≡ pos side }
{
    let reach = coordinate(side);
    GridFigure {
        points,
        width: reach,
        height: reach,
    }
}

/// Draws `map` over `base` as [`convex_draw`] does, by its `lists` and `faces`. Fails only when out of memory.
pub fn figure_by_faces(
    alloc: Global,
    map: &HalfMap,
    lists: &Rotations,
    faces: &Faces,
    base: DartId,
) -> Result<GridFigure, AllocError>
    requires plane { IsPlane map.now.lists }
    requires three { IsThreeConnected map.now.lists }
    requires lists { map.now.lists ≡ lists.now }
    requires faces { AreFaces map.now faces.now }
    requires base { IsLive map.now base.0 }
    ensures points { IfOk result (λ figure. (s d : ℕ) → dart_at map.now base.0 ≡ Some (s, d) → AreRunPoints map.now.lists s d figure.points) }
    ensures grid { IfOk result (λ figure. (s d : ℕ) → dart_at map.now base.0 ≡ Some (s, d) → IsConvexGrid map.now.lists s d figure) }
{
    let rows = rows_by_faces(alloc, map, lists, faces, base)?;
    let side = side_of(map);
    let run = FaceRun {
        rows: &rows,
        d: map.head(base),
        s: map.tail(base),
        count: map.n(),
        faces: side,
    };
    let points = count_points(alloc, &run)?;
    Ok(in_square(points, side))
}

/// Draws `map`, three-connected and of genus zero, convexly over `base`. That dart is drawn from the upper left corner
/// of the grid to the lower right one, and its face is the outer one. The grid is f - 1 by f - 1, for f faces. No inner
/// face bends inwards, and the outer one is a triangle with flat angles.
///
/// The points are counts of faces over a construction sequence. Fails only when out of memory. The map stays as it is.
///
/// Source: Felsner, Convex drawings of planar graphs and the order dimension of 3-polytopes, 2001.
pub fn convex_draw(alloc: Global, map: &HalfMap, base: DartId) -> Result<GridFigure, AllocError>
    requires plane { IsPlane map.now.lists }
    requires three { IsThreeConnected map.now.lists }
    requires base { IsLive map.now base.0 }
    ensures points { IfOk result (λ figure. (s d : ℕ) → dart_at map.now base.0 ≡ Some (s, d) → AreRunPoints map.now.lists s d figure.points) }
    ensures grid { IfOk result (λ figure. (s d : ℕ) → dart_at map.now base.0 ≡ Some (s, d) → IsConvexGrid map.now.lists s d figure) }
{
    let lists = map.rotations(alloc)?;
    let all = faces(alloc, map)?;
    let figure = figure_by_faces(alloc, map, &lists, &all, base)?;
    Ok(figure)
}
