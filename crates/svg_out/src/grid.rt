//! Straight-line drawings as SVG: segments for edges and dots for vertices.
ghost use Rattle.std.specs.Prelude.{◌≡◌, ◌<◌, ℕ, ◌++◌, length, map, flat_map, slice_index_or, OnOk, OnErr, IfOk};
ghost use Rattle.map_theory.specs.Maps.{Dart, IsSimpleMap};
ghost use Rattle.figure_text.specs.Text.{point_at};
ghost use Rattle.svg_out.specs.Edges.{edges as the_edges, AreBelow};
ghost use Rattle.svg_out.specs.Svg.{across as far_right, down as far_down, greatest, straight_edge, dot, grid_body, grid_svg};

use crate::sorted_edges::edges;
use crate::svg_tags::{Spot, across, down, push_closing, push_dot, push_opening, push_segment};
use map_lists::Rotations;
use pg_plane::{Point, Points};
use std::alloc::{AllocError, Global};

// Returns point `v` of `list`.
fn point(list: &Points, v: usize) -> Point
    requires { v < length list.now }
    ensures { result ≡ point_at list.now v }
{
    list.get(v)
}

// Returns the greatest x of `points`, or 0 where that is greater.
fn width_of(points: &Points) -> i32
    ensures { result ≡ greatest (map (λ p. p.x) points.now) }
{
    let mut width = 0;
    for v in 0..points.len() {
        width = width.max(point(points, v).x);
    }
    width
}

// Returns the greatest y of `points`, or 0 where that is greater.
fn height_of(points: &Points) -> i32
    ensures { result ≡ greatest (map (λ p. p.y) points.now) }
{
    let mut height = 0;
    for v in 0..points.len() {
        height = height.max(point(points, v).y);
    }
    height
}

// Returns the position of `point` in the picture, ten times as large and y down, of a drawing that is `height` high.
fn spot(height: i32, point: Point) -> Spot
    ensures x { result.x ≡ far_right point.x }
    ensures y { result.y ≡ far_down height point.y }
{
    Spot {
        x: across(point.x),
        y: down(height, point.y),
    }
}

// Appends a segment for each of `edges`, index pairs in `points`, to `out`. The drawing is `height` high; y goes down.
fn push_straight_edges(
    out: &mut Vec<u8>,
    edges: &[(usize, usize)],
    points: &Points,
    height: i32,
) -> Result<(), AllocError>
    requires { AreBelow (length points.now) edges.now }
    ensures { OnOk result (out.new.items ≡ out.old.items ++ flat_map (straight_edge points.now height) edges.now) }
{
    for k in 0..edges.len() {
        let (a, b) = edges[k];
        let from = spot(height, point(points, a));
        let to = spot(height, point(points, b));
        push_segment(out, from, to, b"")?;
    }
    Ok(())
}

// Appends a dot for each of `points` to `out`. The drawing is `height` high, and y goes down in its picture.
fn push_dots(out: &mut Vec<u8>, points: &Points, height: i32) -> Result<(), AllocError>
    ensures { OnOk result (out.new.items ≡ out.old.items ++ flat_map (dot height) points.now) }
{
    for v in 0..points.len() {
        push_dot(out, height, point(points, v))?;
    }
    Ok(())
}

/// Appends a straight-line drawing of `lists`, a simple map, as SVG to `out`, with a point for each vertex. When memory
/// runs out `out` is unchanged.
pub fn svg_grid(
    alloc: Global,
    lists: &Rotations,
    points: &Points,
    out: &mut Vec<u8>,
) -> Result<(), AllocError>
    requires simple { IsSimpleMap lists.now }
    requires points { length points.now ≡ length lists.now }
    ensures ok { OnOk result (out.new.items ≡ out.old.items ++ grid_svg lists.now points.now) }
    ensures err { OnErr result (out.new.items ≡ out.old.items) }
{
    let edges = edges(alloc, lists)?;
    let height = height_of(points);
    let mut text = Vec::new(alloc);
    push_opening(&mut text, width_of(points), height)?;
    push_straight_edges(&mut text, &edges, points, height)?;
    push_dots(&mut text, points, height)?;
    push_closing(&mut text)?;
    out.extend_from_slice(&text)
}
