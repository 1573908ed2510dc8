//! Answers test rows on convex realizers and the regions of their vertices, and on convex drawings.
ghost use Rattle.std.specs.Prelude.{◌<◌, length, IfOk};
ghost use Rattle.map_theory.specs.Maps.{Dart, IsPlane};
ghost use Rattle.convex_peeling.specs.Polyhedral.{IsThreeConnected};
ghost use Rattle.half_edges.specs.Map.{IsLive};
ghost use Rattle.convex_faces.specs.Directions.{IsWoodIn};

use convex_class::convex_maps::convex_map;
use convex_draw::convex_draw;
use convex_faces::face_regions::face_region;
use convex_faces::wood::{Axis, ConvexWood, convex_wood};
use half_edges::{DartId, HalfMap, VertexId};
use pg_plane::GridFigure;
use row_texts::fault_texts::tell_no_memory;
use row_texts::lists::SomeLists;
use row_texts::maps::first_base;
use row_texts::points::put_points;
use row_texts::reply::Reply;
use row_texts::rows::Row;
use std::alloc::{AllocError, Global};

// Returns the convex realizer of `map` over `base`.
fn wood_over(alloc: Global, map: &HalfMap, base: DartId) -> Result<ConvexWood, AllocError>
    requires plane { IsPlane map.now.lists }
    requires three { IsThreeConnected map.now.lists }
    requires base { IsLive map.now base.0 }
    ensures { IfOk result (λ wood. (start : Dart) × IsWoodIn map.now start wood) }
{
    let wood = convex_wood(alloc, map, base)?;
    Ok(wood)
}

// Returns the numbers of faces in the three regions of `v`.
fn regions(
    alloc: Global,
    map: &HalfMap,
    wood: &ConvexWood,
    v: VertexId,
) -> Result<[i64; 3], AllocError>
    requires plane { IsPlane map.now.lists }
    requires three { IsThreeConnected map.now.lists }
    requires wood { (base : Dart) × IsWoodIn map.now base wood.now }
    requires vertex { v.0 < length map.now.lists }
{
    let one = face_region(alloc, map, wood, v, Axis::One)?;
    let two = face_region(alloc, map, wood, v, Axis::Two)?;
    let three = face_region(alloc, map, wood, v, Axis::Three)?;
    Ok([i64::from(one), i64::from(two), i64::from(three)])
}

// Returns the coordinates of `v`, and what both lack of the width of the grid.
fn coordinates(figure: &GridFigure, v: u16) -> [i64; 3] {
    if usize::from(v) >= figure.points.len() {
        return [-1, -1, -1];
    }
    let place = figure.points.get(usize::from(v));
    let (x, y) = (i64::from(place.x), i64::from(place.y));
    let z = i64::from(figure.width).wrapping_sub(x).wrapping_sub(y);
    [x, y, z]
}

// Writes how many vertices there are, and the first whose regions are not its coordinates, or that there is none.
fn put_compared(map: &HalfMap, wood: &ConvexWood, figure: &GridFigure, out: &mut Reply)
    requires plane { IsPlane map.now.lists }
    requires three { IsThreeConnected map.now.lists }
    requires wood { (base : Dart) × IsWoodIn map.now base wood.now }
{
    out.put_number(u64::from(map.n()));
    for v in 0..map.n() {
        match regions(out.alloc, map, wood, VertexId(v)) {
            Ok(regions) if regions == coordinates(figure, v) => {}
            _ => return out.put_one(" vertices, not at", u64::from(v)),
        }
    }
    out.put(" vertices, all");
}

// Writes the face counts of the three regions of `v`, if it is a vertex.
fn put_region(map: &HalfMap, wood: &ConvexWood, v: u16, out: &mut Reply)
    requires plane { IsPlane map.now.lists }
    requires three { IsThreeConnected map.now.lists }
    requires wood { (base : Dart) × IsWoodIn map.now base wood.now }
{
    if v >= map.n() {
        return;
    }
    if let Ok(counts) = regions(out.alloc, map, wood, VertexId(v)) {
        out.put_whole(counts[0]);
        out.put(" ");
        out.put_whole(counts[1]);
        out.put(" ");
        out.put_whole(counts[2]);
    }
}

// Writes for each vertex the one to which its edge along `axis` leads, and the root of the axis.
fn put_heads(map: &HalfMap, wood: &ConvexWood, axis: Axis, out: &mut Reply) {
    for v in 0..wood.n() {
        match wood.out(axis, VertexId(v)) {
            Some(d) if map.is_live(d) => out.put_number(u64::from(map.head(d).0)),
            _ => out.put("-"),
        }
        out.put(" ");
    }
    out.put_one("to", u64::from(wood.root(axis).0));
    out.put("; ");
}

// Writes for `base` the convex drawing, all regions beside the coordinates, the regions of a vertex, or the edges of
// the realizer, as `row` asks.
fn of_base(row: &Row<'_>, map: &HalfMap, base: DartId, out: &mut Reply)
    requires plane { IsPlane map.now.lists }
    requires three { IsThreeConnected map.now.lists }
    requires base { IsLive map.now base.0 }
{
    if row.call == "drawing" {
        match convex_draw(out.alloc, map, base) {
            Ok(figure) => put_points(&figure.points, usize::MAX, out),
            Err(_) => tell_no_memory(out),
        }
        return;
    }
    match wood_over(out.alloc, map, base) {
        Ok(wood) => match row.call {
            "regions" => match convex_draw(out.alloc, map, base) {
                Ok(figure) => put_compared(map, &wood, &figure, out),
                Err(_) => tell_no_memory(out),
            },
            "region" => put_region(map, &wood, row.number(1), out),
            _ => {
                put_heads(map, &wood, Axis::One, out);
                put_heads(map, &wood, Axis::Two, out);
                put_heads(map, &wood, Axis::Three, out);
            }
        },
        Err(_) => tell_no_memory(out),
    }
}

/// Answers a row on convex drawings, of a map that is three-connected and of genus zero, over the first dart of vertex
/// 0.
pub fn answer(row: &Row<'_>, given: &SomeLists, out: &mut Reply) {
    if let Ok(found) = convex_map(out.alloc, &given.lists) {
        if let Some(base) = first_base(&found.map) {
            of_base(row, &found.map, base, out);
        }
    }
}
