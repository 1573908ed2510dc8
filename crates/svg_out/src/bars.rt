//! Visibility drawings as SVG: bars for vertices and columns for edges.
ghost use Rattle.std.specs.Prelude.{◌≡◌, ◌<◌, ℕ, ℤ, pos, ◌+ℤ◌, ◌-ℤ◌, ◌++◌, length, fold, slice_index_or, OnOk, OnErr, IfOk};
ghost use Rattle.std.specs.Int.{int_max};
ghost use Rattle.map_theory.specs.Maps.{Dart, IsSimpleMap, edge_count};
ghost use Rattle.figure_text.specs.Text.{integer_at, HasBars};
ghost use Rattle.svg_out.specs.Edges.{AreBelow};
ghost use Rattle.svg_out.specs.Svg.{across as far_right, down as far_down, greatest, thick as the_width, bar, upright, bar_marks, column_marks, bars_body, bars_svg, HasColumns};

use crate::sorted_edges::edges;
use crate::svg_tags::{Spot, across, down, push_closing, push_opening, push_segment};
use map_lists::Rotations;
use pg_plane::{BarFigure, Ints};
use std::alloc::{AllocError, Global};

// Returns entry `v` of `list`.
pub(crate) fn integer(list: &Ints, v: usize) -> i32
    requires { v < length list.now }
    ensures { result ≡ integer_at list.now v }
{
    list.get(v)
}

// Returns the greatest of `least` and all numbers of `list`.
pub(crate) fn greatest_from(least: i32, list: &Ints) -> i32
    ensures { result ≡ fold int_max least list.now }
{
    let mut most = least;
    for k in 0..list.len() {
        most = most.max(integer(list, k));
    }
    most
}

// Returns both ends of vertex `v`'s bar in the picture of a drawing `height` high, left first, each 3 beyond the bar.
fn bar_ends(bars: &BarFigure, height: i32, v: usize) -> (Spot, Spot)
    requires y { v < length bars.now.y }
    requires x1 { v < length bars.now.x1 }
    requires x2 { v < length bars.now.x2 }
    ensures x1 { result.0.x ≡ far_right (integer_at bars.now.x1 v) -ℤ pos 3 }
    ensures x2 { result.1.x ≡ far_right (integer_at bars.now.x2 v) +ℤ pos 3 }
    ensures y { (result.0.y ≡ far_down height (integer_at bars.now.y v)) × (result.1.y ≡ far_down height (integer_at bars.now.y v)) }
{
    let y = down(height, integer(&bars.y, v));
    let x1 = across(integer(&bars.x1, v)) - 3;
    let x2 = across(integer(&bars.x2, v)) + 3;
    (Spot { x: x1, y }, Spot { x: x2, y })
}

// Returns the end of edge `i` at the bar of vertex `v` in the picture. The drawing is `height` high.
fn edge_end(bars: &BarFigure, height: i32, i: usize, v: usize) -> Spot
    requires column { i < length bars.now.column }
    requires y { v < length bars.now.y }
    ensures x { result.x ≡ far_right (integer_at bars.now.column i) }
    ensures y { result.y ≡ far_down height (integer_at bars.now.y v) }
{
    Spot {
        x: across(integer(&bars.column, i)),
        y: down(height, integer(&bars.y, v)),
    }
}

// Returns the SVG attribute for the thickness of a bar.
fn thick() -> &'static [u8]
    ensures { result.now ≡ the_width }
{
    b" stroke-width=\"3\""
}

// Appends the bars of all vertices of `lists` to `out`. The drawing is `height` high, and y goes down in its picture.
fn push_bars(
    out: &mut Vec<u8>,
    lists: &Rotations,
    bars: &BarFigure,
    height: i32,
) -> Result<(), AllocError>
    requires { HasBars lists.now bars.now }
    ensures { OnOk result (out.new.items ≡ out.old.items ++ bar_marks bars.now height (length lists.now)) }
{
    for v in 0..lists.len() {
        let (from, to) = bar_ends(bars, height, v);
        push_segment(out, from, to, thick())?;
    }
    Ok(())
}

// Appends the columns of `edges`, pairs of vertices, to `out`: `bars` has one each. The drawing is `height` high.
fn push_columns(
    out: &mut Vec<u8>,
    edges: &[(usize, usize)],
    bars: &BarFigure,
    height: i32,
) -> Result<(), AllocError>
    requires ends { AreBelow (length bars.now.y) edges.now }
    requires columns { length bars.now.column ≡ length edges.now }
    ensures { OnOk result (out.new.items
        ≡ out.old.items ++ column_marks edges.now bars.now height (length edges.now)) }
{
    for i in 0..edges.len() {
        let (a, b) = edges[i];
        let from = edge_end(bars, height, i, a);
        let to = edge_end(bars, height, i, b);
        push_segment(out, from, to, b"")?;
    }
    Ok(())
}

/// Appends the visibility drawing `bars` of `lists`, a simple map, to `out` as SVG, with a bar for each vertex and a
/// column for each edge. When memory runs out `out` is unchanged.
pub fn svg_bars(
    alloc: Global,
    lists: &Rotations,
    bars: &BarFigure,
    out: &mut Vec<u8>,
) -> Result<(), AllocError>
    requires simple { IsSimpleMap lists.now }
    requires columns { HasColumns lists.now bars.now }
    ensures ok { OnOk result (out.new.items ≡ out.old.items ++ bars_svg lists.now bars.now) }
    ensures err { OnErr result (out.new.items ≡ out.old.items) }
{
    let edges = edges(alloc, lists)?;
    let width = greatest_from(greatest_from(0, &bars.x2), &bars.column);
    let height = greatest_from(0, &bars.y);
    let mut text = Vec::new(alloc);
    push_opening(&mut text, width, height)?;
    push_bars(&mut text, lists, bars, height)?;
    push_columns(&mut text, &edges, bars, height)?;
    push_closing(&mut text)?;
    out.extend_from_slice(&text)
}
