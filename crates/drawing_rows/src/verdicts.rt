//! Answers test rows on verdicts on straight-line and convex drawings.
ghost use Rattle.std.specs.Prelude.{IfSome, All};
ghost use Rattle.plane_drawings.specs.Drawing.{HasPlaces};
ghost use Rattle.pg_plane.specs.Range.{IsInRange};
ghost use Rattle.plane_laws.specs.Triangulations.{IsTriangulation};

use convex_check::{ConvexVerdict, check_convex};
use draw_check::{FaceVerdict, OuterVerdict, Verdict, check, check_by_faces, check_outer};
use half_edges::HalfMap;
use pg_plane::GridFigure;
use plane_drawings::sweep_check::is_plane_by_sweep;
use row_texts::fault_texts::tell_no_memory;
use row_texts::maps::dart_between;
use row_texts::points::{are_in_range, integer, points_of};
use row_texts::reply::Reply;
use row_texts::row_arguments::{halves, pair};
use row_texts::rows::Row;
use std::alloc::Global;

// Returns the figure that `row` gives to `map`, if it has a point for each vertex.
fn figure_of(alloc: Global, map: &HalfMap, row: &Row<'_>) -> Option<GridFigure>
    ensures places { IfSome result (λ figure. HasPlaces map.now.lists figure.points) }
    ensures range { IfSome result (λ figure. All IsInRange figure.points) }
{
    let points = points_of(alloc, row.arg(1));
    let (width, height) = halves(row.arg(2));
    if points.len() != usize::from(map.n()) || !are_in_range(&points) {
        return None;
    }
    Some(GridFigure {
        points,
        width: integer(width),
        height: integer(height),
    })
}

/// Writes the verdict by the faces of a triangulation, with the dart from vertex 0 to vertex 1 as its base.
pub fn faces(row: &Row<'_>, tri: &HalfMap, out: &mut Reply)
    requires triangulation { IsTriangulation tri.now.lists }
{
    if let Some(base) = dart_between(tri, 0, 1) {
        if let Some(figure) = figure_of(out.alloc, tri, row) {
            match check_by_faces(tri, base, &figure) {
                FaceVerdict::OutOfGrid(v) => out.put_with("OutOfGrid", &[v.0]),
                FaceVerdict::Wrong(u, v, w) => out.put_with("Wrong", &[u.0, v.0, w.0]),
                FaceVerdict::Yes => out.put("Yes"),
            }
        }
    }
}

// Writes the verdict on the dart in `row`: whether its face is the outer one, or whether the drawing is convex with
// that outer face.
fn put_outer(row: &Row<'_>, map: &HalfMap, figure: &GridFigure, out: &mut Reply)
    requires { HasPlaces map.now.lists figure.now.points }
{
    let (u, v) = pair(row.arg(2));
    let Some(base) = dart_between(map, u, v) else {
        return;
    };
    if row.call == "convex" {
        match check_convex(out.alloc, map, base, figure) {
            Ok(ConvexVerdict::Bent(u, v, w)) => out.put_with("Bent", &[u.0, v.0, w.0]),
            Ok(ConvexVerdict::OuterBent) => out.put("OuterBent"),
            Ok(ConvexVerdict::Yes) => out.put("Yes"),
            Err(_) => tell_no_memory(out),
        }
        return;
    }
    match check_outer(out.alloc, map, base, figure) {
        Ok(OuterVerdict::Inside(u, v)) => out.put_with("Inside", &[u.0, v.0]),
        Ok(OuterVerdict::Yes) => out.put("Yes"),
        Err(_) => tell_no_memory(out),
    }
}

/// Answers a row on a drawing of a map, with its grid or the dart left of which its outer face is.
pub fn answer(row: &Row<'_>, map: &HalfMap, out: &mut Reply) {
    let Some(figure) = figure_of(out.alloc, map, row) else {
        return;
    };
    match row.call {
        "grid" => match check(map, &figure) {
            Verdict::OutOfGrid(v) => out.put_with("OutOfGrid", &[v.0]),
            Verdict::SamePlace(v, u) => out.put_with("SamePlace", &[v.0, u.0]),
            Verdict::OnEdge(v, e) => out.put_with("OnEdge", &[v.0, e.a.0, e.b.0]),
            Verdict::Cross(e, f) => out.put_with("Cross", &[e.a.0, e.b.0, f.a.0, f.b.0]),
            Verdict::Turned(v) => out.put_with("Turned", &[v.0]),
            Verdict::Yes => out.put("Yes"),
        },
        "convex" | "outer" => put_outer(row, map, &figure, out),
        _ => out.put_flag(is_plane_by_sweep(map, &figure.points)),
    }
}
