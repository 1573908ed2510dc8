//! The types the check passes on: the bars of a figure that passed the first tests, and with them its edges' columns.
ghost use Rattle.std.specs.Prelude.{◌≡◌, ◌*◌, ◌<◌, ◌≤◌, length};
ghost use Rattle.drawings.specs.Bars.{edges_before};
ghost use Rattle.bar_check.specs.Verdicts.{HasShape, HasHeights, AreBars, NoBadColumn};
ghost use Rattle.bar_check.specs.Tables.{AreClear, AreColumns, StandsAt};

use half_edges::{HalfMap, VertexId};
use pg_plane::BarFigure;

/// The bars of a map's vertices: their heights are 0 to n - 1, each once, and all go left to right within the width.
#[derive(Clone, Copy)]
pub(crate) struct Bars<'a> {
    pub(crate) map: &'a HalfMap,
    pub(crate) fig: &'a BarFigure,
    pub(crate) width: i32,
    ghost shape: { HasShape map.now.lists fig.now },
    ghost heights: { HasHeights map.now.lists fig.now },
    ghost bars: { AreBars map.now.lists fig.now width },
}

/// Bars with the edges' columns, by dart id as far as the table reaches: each is within the bars of both ends.
#[derive(Clone, Copy)]
pub(crate) struct BarDrawing<'a> {
    pub(crate) map: &'a HalfMap,
    pub(crate) fig: &'a BarFigure,
    pub(crate) width: i32,
    pub(crate) columns: &'a [i32],
    ghost shape: { HasShape map.now.lists fig.now },
    ghost heights: { HasHeights map.now.lists fig.now },
    ghost bars: { AreBars map.now.lists fig.now width },
    ghost within: { NoBadColumn map.now.lists fig.now width },
    ghost table: { AreColumns map.now fig.now columns.now },
}

/// A vertex as the greater end of edges, for their columns by the number of the next edge upwards of each lesser end.
#[derive(Clone, Copy)]
pub(crate) struct GreaterEnd<'a> {
    pub(crate) bars: Bars<'a>,
    pub(crate) b: VertexId,
    ghost vertex: { b.0 < length bars.map.now.lists },
}

/// A bar drawing with its vertices in an order, which a sweep compares with that of their heights.
#[derive(Clone, Copy)]
pub(crate) struct OrderedBars<'a> {
    pub(crate) drawing: BarDrawing<'a>,
    pub(crate) order: &'a [u16],
    ghost size: { length order.now ≡ length drawing.map.now.lists },
}

/// The bar of a vertex in a bar drawing, and its height.
#[derive(Clone, Copy)]
pub(crate) struct Bar<'a> {
    pub(crate) drawing: BarDrawing<'a>,
    pub(crate) h: u16,
    pub(crate) v: VertexId,
    ghost stands: { StandsAt (length drawing.map.now.lists) drawing.fig.now h v.0 },
}

/// A vertex as the lesser end of edges. It has the number of edges with a lesser first end, and marks at darts whose
/// edges have no bar in their way.
#[derive(Clone, Copy)]
pub(crate) struct LesserEnd<'a> {
    pub(crate) drawing: BarDrawing<'a>,
    pub(crate) clear: &'a [bool],
    pub(crate) a: VertexId,
    pub(crate) before: u32,
    ghost marks: { AreClear drawing.map.now drawing.fig.now clear.now },
    ghost vertex: { a.0 < length drawing.map.now.lists },
    ghost count: { before ≡ edges_before drawing.map.now.lists a.0 },
    ghost few: { before ≤ 65535 * a.0 },
}
