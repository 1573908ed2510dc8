//! An interval of the contour, as the type `ContourInterval`, with the face inside of each edge.
ghost use Rattle.std.specs.Prelude.{◌<◌, length};
ghost use Rattle.convex_orders.specs.Contours.{AreInner};

use crate::map_tables::Tables;

/// An interval of a contour, with the numbers of the faces inside of the edges.
#[derive(Clone, Copy)]
pub(crate) struct ContourInterval<'a> {
    pub(crate) tables: &'a Tables,
    /// For each vertex the number of the face inside of the edge from it on.
    pub(crate) inner: &'a [u32],
    /// The vertices of the contour.
    pub(crate) ws: &'a [u16],
    /// The index in `ws` of the interval's first vertex.
    pub(crate) first: usize,
    /// The index of its last vertex.
    pub(crate) last: usize,
    ghost order: { first < last },
    ghost within: { last < length ws.now },
    ghost numbered: { ∥ AreInner tables.now.lists tables.now.faces.own ws.now inner.now ∥₁ },
}
