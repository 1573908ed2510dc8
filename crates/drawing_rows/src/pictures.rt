//! Answers test rows on pictures of figures as SVG.
ghost use Rattle.std.specs.Prelude.{◌≡◌};
ghost use Rattle.map_theory.specs.Maps.{IsSimpleMap};
ghost use Rattle.svg_out.specs.Svg.{IsDrawn};

use figure_text::{Figure, GridJob};
use half_edges::{HalfMap, Rotations};
use row_texts::bytes::put_bytes;
use row_texts::points::{bars_of, points_of};
use row_texts::reply::Reply;
use row_texts::row_arguments::behind;
use row_texts::rows::Row;
use svg_out::svg;

// Writes the picture of `figure`.
fn put_picture(figure: Figure, out: &mut Reply)
    requires { IsDrawn figure }
{
    let mut bytes = Vec::new(out.alloc);
    let _ = svg(out.alloc, 1, &figure, &mut bytes);
    drop(figure);
    put_bytes(&bytes, out);
}

// Writes the picture of `lists` by the points in `row`, if there is one for each vertex.
fn put_points(lists: Rotations, row: &Row<'_>, out: &mut Reply)
    requires { IsSimpleMap lists }
{
    let points = points_of(out.alloc, row.arg(1));
    if points.len() == lists.len() {
        let job = GridJob::Shift;
        put_picture(Figure::Grid { job, lists, points }, out);
    }
}

// Writes the picture of the `lists` of `map` by the bars in `row`, if these have all vertices and edges.
fn put_bars(map: &HalfMap, lists: Rotations, row: &Row<'_>, out: &mut Reply)
    requires { lists ≡ map.now.lists }
{
    if let Some(bars) = bars_of(out.alloc, behind(row.args, 1), lists.len()) {
        if bars.column.len() == map.m() as usize {
            put_picture(Figure::Bars { lists, bars }, out);
        }
    }
}

/// Writes the picture of a map by the points of its vertices, or by its bars.
pub fn answer(row: &Row<'_>, map: &HalfMap, out: &mut Reply) {
    if let Ok(lists) = map.rotations(out.alloc) {
        if row.call == "grid" {
            put_points(lists, row, out);
        } else {
            put_bars(map, lists, row, out);
        }
    }
}
