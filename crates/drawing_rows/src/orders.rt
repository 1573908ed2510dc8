//! Answers test rows on canonical orders of triangulations, and on the shift and Schnyder drawings made by them.
ghost use Rattle.std.specs.Prelude.{◌<◌, IfOk};
ghost use Rattle.half_edges.specs.Map.{IsLive};
ghost use Rattle.map_theory.specs.Maps.{Dart, HasDart};
ghost use Rattle.plane_laws.specs.Triangulations.{IsTriangulation};
ghost use Rattle.canon_order.specs.Orders.{IsCanonicalOrder, vertices_of};

use crate::{completions, trees, verdicts, woods};
use canon_order::{Order, Peeler, canon_order};
use fpp_shift::shift_draw;
use grid_figures::drawing_orders::{DrawingOrder, drawing_order};
use grid_figures::schnyder_figures::schnyder_figure;
use grid_figures::schnyder_grid::wood_draw;
use grid_figures::shift_figures::shift_figure;
use half_edges::{DartId, HalfMap};
use pg_plane::GridFigure;
use refusals::Unserved;
use row_texts::fault_texts::{tell_no_memory, tell_unserved};
use row_texts::lists::{SomeLists, put_counts, put_vertices};
use row_texts::maps::dart_between;
use row_texts::points::put_points;
use row_texts::reply::Reply;
use row_texts::row_arguments::pair;
use row_texts::rows::Row;
use std::alloc::{AllocError, Global};

// Returns the triangulation of the given lists, and its canonical order for a dart from vertex 0.
fn order_of(alloc: Global, given: &SomeLists) -> Result<DrawingOrder, Unserved>
    ensures triangulation { IfOk result (λ found. IsTriangulation found.tri.lists) }
    ensures order { IfOk result (λ found. (base : Dart) × IsCanonicalOrder found.tri.lists base (vertices_of found.order)) }
    ensures based { IfOk result (λ found. (base : Dart) × HasDart found.tri.lists base.0 base.1 × IsCanonicalOrder found.tri.lists base (vertices_of found.order)) }
{
    let found = drawing_order(alloc, &given.lists)?;
    Ok(found)
}

// Writes the vertices of `order`, and the rank of each.
fn put_order(order: &Order, out: &mut Reply) {
    put_vertices(&order.at, usize::MAX, out);
    out.put(", places ");
    put_counts(&order.rank, out);
}

// Writes the size of the grid of `figure` and its first `most` points, or why there is no figure.
fn put_served(figure: Result<GridFigure, Unserved>, most: u16, out: &mut Reply) {
    match figure {
        Ok(figure) => {
            out.put_whole(i64::from(figure.width));
            out.put(" by ");
            out.put_whole(i64::from(figure.height));
            out.put(", ");
            put_points(&figure.points, usize::from(most), out);
        }
        Err(unserved) => tell_unserved(unserved, out),
    }
}

// Returns a peeler with the order of `tri` for `base`, found by its lists alone.
fn order_by_lists(alloc: Global, tri: &HalfMap, base: DartId) -> Result<Peeler, AllocError>
    requires triangulation { IsTriangulation tri.now.lists }
    requires live { IsLive tri.now base.0 }
{
    let lists = tri.rotations(alloc)?;
    let mut peeler = Peeler::new(alloc);
    peeler.order_lists(alloc, &lists, tri.tail(base).0, tri.head(base).0)?;
    Ok(peeler)
}

// Writes the order of `tri` for the dart between two vertices of `row`, by the map or by its lists, if there is such a
// dart.
fn order_for(row: &Row<'_>, tri: &HalfMap, out: &mut Reply)
    requires triangulation { IsTriangulation tri.now.lists }
{
    let (u, v) = pair(row.arg(1));
    if let Some(base) = dart_between(tri, u, v) {
        if row.call == "order for" {
            match canon_order(out.alloc, tri, base) {
                Ok(order) => put_order(&order, out),
                Err(_) => tell_no_memory(out),
            }
        } else {
            match order_by_lists(out.alloc, tri, base) {
                Ok(peeler) => put_order(&peeler.order, out),
                Err(_) => tell_no_memory(out),
            }
        }
    }
}

// Writes `order`, the points of a drawing by it, its tree of offsets, or the order for another dart, as `row` asks.
fn of_order(row: &Row<'_>, tri: &HalfMap, order: &Order, out: &mut Reply)
    requires triangulation { IsTriangulation tri.now.lists }
    requires order { (base : Dart) × IsCanonicalOrder tri.now.lists base (vertices_of order.now) }
{
    match row.call {
        "order" => put_order(order, out),
        "order for" | "order by lists" => order_for(row, tri, out),
        "shift" => match shift_draw(out.alloc, tri, order) {
            Ok(figure) => put_points(&figure.points, usize::MAX, out),
            Err(_) => tell_no_memory(out),
        },
        "schnyder" => match wood_draw(out.alloc, tri, order) {
            Ok(figure) => put_points(&figure.points, usize::MAX, out),
            Err(_) => tell_no_memory(out),
        },
        _ => trees::answer(row.call == "offsets", tri, order, out),
    }
}

// Answers a row on the triangulation of the given lists and its order.
fn of_found(row: &Row<'_>, given: &SomeLists, found: &DrawingOrder, out: &mut Reply)
    requires triangulation { IsTriangulation found.now.tri.lists }
    requires order { (base : Dart) × IsCanonicalOrder found.now.tri.lists base (vertices_of found.now.order) }
    requires based { (base : Dart) × HasDart found.now.tri.lists base.0 base.1 × IsCanonicalOrder found.now.tri.lists base (vertices_of found.now.order) }
{
    match row.family {
        "draw" => of_order(row, &found.tri, &found.order, out),
        "wood" => woods::answer(row, &found.tri, &found.order, out),
        "complete" => completions::answer(row.call, &given.lists, &found.tri, out),
        _ => verdicts::faces(row, &found.tri, out),
    }
}

// Answers a row on the triangulation of the given lists and its order, where these have one.
fn over_order(row: &Row<'_>, given: &SomeLists, out: &mut Reply) {
    match order_of(out.alloc, given) {
        Ok(found) => of_found(row, given, &found, out),
        Err(unserved) => tell_unserved(unserved, out),
    }
}

/// Answers a row on orders and what stands on them.
pub fn answer(row: &Row<'_>, given: &SomeLists, out: &mut Reply) {
    let most = row.number(1);
    match row.call {
        "shift figure" => put_served(shift_figure(out.alloc, &given.lists), most, out),
        "schnyder figure" => put_served(schnyder_figure(out.alloc, &given.lists), most, out),
        "alone" => completions::alone(given, out),
        "node" => trees::node(row.number(0), most, out),
        _ => over_order(row, given, out),
    }
}
