//! Calls for C that judge straight-line drawings of maps, also those that are to be convex, and their outer faces.
ghost use Rattle.std.specs.Prelude.{◌≡◌, Some, None, IfOk, IfErr};
ghost use Rattle.std.specs.Bool.{OnTrue};
ghost use Rattle.simple_maps.specs.Faults.{first_fault};
ghost use Rattle.refusals.specs.Conditions.{fault_refusal};
ghost use Rattle.plane_drawings.specs.Drawing.{HasPlaces};
ghost use Rattle.draw_check.specs.Verdicts.{IsVerdict};
ghost use Rattle.draw_check.specs.declared.verdict.Verdict.TheVariants.{Yes as NoFault};
ghost use Rattle.pigale_c.specs.Arrays.{lists_in, points_in, IsGivenDrawing};
ghost use Rattle.pigale_c.specs.Judged.{IsBendVerdict, IsJudged, IsJudgedConvex, IsJudgedOuter};
ghost use Rattle.pigale_c.specs.Failures.{Fails};
ghost use Rattle.pigale_c.specs.Numbers.{Reports, outcome_of};

use crate::map_arrays::{MapArrays, lists_of, points_of};
use crate::outcome::{Failure, Numbers, Outcome, report};
use convex_check::{ConvexVerdict, check_convex_points};
use draw_check::{OuterVerdict, Verdict, check_outer, check_points};
use figure_verdicts::is_drawn_triangulation;
use half_edges::{HalfMap, VertexId};
use pg_plane::{GridFigure, Point, Points};
use std::alloc::{AllocError, Global};

// A map, and a point for each of its vertices.
#[derive(Drop)]
struct Drawing {
    map: HalfMap,
    points: Points,
}

// Reads the map `given` and its points, with the coordinates `x` and `y` of each vertex. `Err` says why there is none:
// bad lengths or coordinates, no simple map, or no memory.
fn drawing_of(given: &MapArrays<'_>, x: &[i32], y: &[i32]) -> Result<Drawing, Failure>
    ensures map { IfOk result (λ drawing. drawing.map.lists ≡ lists_in given.now.ends.now given.now.neighbours.now) }
    ensures points { IfOk result (λ drawing. drawing.points ≡ points_in x.now y.now) }
    ensures places { IfOk result (λ drawing. HasPlaces drawing.map.lists drawing.points) }
    ensures simple { IfOk result (λ drawing. first_fault (lists_in given.now.ends.now given.now.neighbours.now) ≡ None) }
    ensures given { IfOk result (λ drawing. IsGivenDrawing given.now.ends.now given.now.neighbours.now x.now y.now) }
    ensures failed { IfErr result (Fails (IsGivenDrawing given.now.ends.now given.now.neighbours.now x.now y.now)
        (λ refusal. fault_refusal (lists_in given.now.ends.now given.now.neighbours.now) ≡ Some refusal)) }
{
    let lists = lists_of(given.alloc, given.ends, given.neighbours)?;
    let points = points_of(given.alloc, given.ends.len(), x, y)?;
    let map = HalfMap::from_rotations(given.alloc, &lists)?;
    Ok(Drawing { map, points })
}

// Says whether a quick test, with no half-edge map, shows that the map `given` is a triangulation validly drawn at the
// points of `x` and `y`, in the grid from (0, 0) to `corner`. False promises nothing.
fn is_seen_valid(given: &MapArrays<'_>, x: &[i32], y: &[i32], corner: Point) -> bool
    ensures { OnTrue result (IsGivenDrawing given.now.ends.now given.now.neighbours.now x.now y.now
        × (first_fault (lists_in given.now.ends.now given.now.neighbours.now) ≡ None)
        × IsVerdict (lists_in given.now.ends.now given.now.neighbours.now) (points_in x.now y.now) corner.x corner.y NoFault) }
{
    if given.neighbours.len().wrapping_add(12) != given.ends.len().wrapping_mul(6) {
        return false;
    }
    let Ok(lists) = lists_of(given.alloc, given.ends, given.neighbours) else {
        return false;
    };
    let Ok(points) = points_of(given.alloc, given.ends.len(), x, y) else {
        return false;
    };
    is_drawn_triangulation(given.alloc, &lists, &points, corner)
}

/// Returns the verdict on the drawing of the map `given` with straight edges, at the points of `x` and `y`, in the grid
/// from (0, 0) to `corner`. `Err` says why there is none: bad arrays, no simple map, or no memory.
pub(crate) fn judged(
    given: &MapArrays<'_>,
    x: &[i32],
    y: &[i32],
    corner: Point,
) -> Result<Outcome, Failure>
    ensures { IsJudged given.now.ends.now given.now.neighbours.now x.now y.now corner.x corner.y (outcome_of result) }
{
    if is_seen_valid(given, x, y, corner) {
        return Ok(Outcome::Drawing(Verdict::Yes));
    }
    let drawing = drawing_of(given, x, y)?;
    let verdict = check_points(&drawing.map, &drawing.points, corner);
    Ok(Outcome::Drawing(verdict))
}

/// Judges a straight-line drawing of a map (`neighbours` cut into lists at `ends`), vertex v at (`x[v]`, `y[v]`), in
/// the grid up to (`width`, `height`). Returns the verdict's status, and writes the vertices that it names to `found`.
#[unsafe(no_mangle)]
pub extern "C" fn pigale_check(
    alloc: Global,
    ends: &[usize],
    neighbours: &[u16],
    x: &[i32],
    y: &[i32],
    width: i32,
    height: i32,
    found: &mut Numbers,
) -> u8
    ensures { Reports (IsJudged ends.now neighbours.now x.now y.now width height) result found.new }
{
    let corner = Point {
        x: width,
        y: height,
    };
    let given = MapArrays {
        alloc,
        ends,
        neighbours,
    };
    report(judged(&given, x, y, corner), found)
}

// Returns the verdict on the bends of the faces of `map`, drawn at `points`, with the face of the first dart of vertex
// 0 outside. It fails only when out of memory.
fn bends(alloc: Global, map: &HalfMap, points: &Points) -> Result<ConvexVerdict, AllocError>
    requires { HasPlaces map.now.lists points.now }
    ensures { IfOk result (IsBendVerdict map.now.lists points.now) }
{
    match map.first_dart(VertexId(0)) {
        Some(base) => {
            let verdict = check_convex_points(alloc, map, base, points)?;
            Ok(verdict)
        }
        None => Ok(ConvexVerdict::OuterBent),
    }
}

// Returns the first fault of the drawing of the map `given`, at the points of `x` and `y`, in the grid from (0, 0) to
// `corner`; if it has none, the verdict on the bends of its faces. `Err` says why there is no verdict.
fn judged_convex(
    given: &MapArrays<'_>,
    x: &[i32],
    y: &[i32],
    corner: Point,
) -> Result<Outcome, Failure>
    ensures { IsJudgedConvex given.now.ends.now given.now.neighbours.now x.now y.now corner.x corner.y (outcome_of result) }
{
    let drawing = drawing_of(given, x, y)?;
    match check_points(&drawing.map, &drawing.points, corner) {
        Verdict::Yes => {
            let verdict = bends(given.alloc, &drawing.map, &drawing.points)?;
            Ok(Outcome::Convex(verdict))
        }
        verdict => Ok(Outcome::Drawing(verdict)),
    }
}

/// Judges a drawing, with convex faces due, of a map (`neighbours` cut into lists at `ends`), vertex v at (`x[v]`,
/// `y[v]`), in the grid up to (`width`, `height`). Returns the verdict's status, and writes its vertices to `found`.
#[unsafe(no_mangle)]
pub extern "C" fn pigale_check_convex(
    alloc: Global,
    ends: &[usize],
    neighbours: &[u16],
    x: &[i32],
    y: &[i32],
    width: i32,
    height: i32,
    found: &mut Numbers,
) -> u8
    ensures { Reports (IsJudgedConvex ends.now neighbours.now x.now y.now width height) result found.new }
{
    let corner = Point {
        x: width,
        y: height,
    };
    let given = MapArrays {
        alloc,
        ends,
        neighbours,
    };
    report(judged_convex(&given, x, y, corner), found)
}

// Returns the verdict on the outer face of the drawing of the map `given` at the points of `x` and `y`, which is to be
// that of the first dart of vertex 0. `Err` says why there is none: bad arrays, no simple map, or no memory.
fn judged_outer(given: &MapArrays<'_>, x: &[i32], y: &[i32]) -> Result<Outcome, Failure>
    ensures { IsJudgedOuter given.now.ends.now given.now.neighbours.now x.now y.now (outcome_of result) }
{
    let drawing = drawing_of(given, x, y)?;
    let Some(base) = drawing.map.first_dart(VertexId(0)) else {
        return Ok(Outcome::Outer(OuterVerdict::Yes));
    };
    let figure = GridFigure {
        points: drawing.points,
        width: 0,
        height: 0,
    };
    let verdict = check_outer(given.alloc, &drawing.map, base, &figure)?;
    Ok(Outcome::Outer(verdict))
}

/// Judges whether a straight-line drawing of a connected map (`neighbours` cut into lists at `ends`), vertex v at
/// (`x[v]`, `y[v]`), has the face of vertex 0's first dart outside. Returns the verdict's status, and writes the dart
/// that it names to `found`.
#[unsafe(no_mangle)]
pub extern "C" fn pigale_check_outer(
    alloc: Global,
    ends: &[usize],
    neighbours: &[u16],
    x: &[i32],
    y: &[i32],
    found: &mut Numbers,
) -> u8
    ensures { Reports (IsJudgedOuter ends.now neighbours.now x.now y.now) result found.new }
{
    let given = MapArrays {
        alloc,
        ends,
        neighbours,
    };
    report(judged_outer(&given, x, y), found)
}
