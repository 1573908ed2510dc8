//! `RectVerdict`: the verdict on a rectangular dual, by its first fault.

use half_edges::VertexId;

/// The first fault of a rectangular dual with the least ids, in the order in which the kinds of fault stand
/// here, or `Yes` where it has none.
#[derive(Clone, Copy, PartialEq, Eq)]
pub enum RectVerdict {
    /// The rectangle of the vertex is empty, or does not lie within n - 2 by n - 2.
    BadRect(VertexId),
    /// The interiors of the rectangles of the two vertices, the lesser first, meet.
    Meet(VertexId, VertexId),
    /// The areas do not sum to that of the rectangle from (0, 0) to the greatest right and upper sides.
    Gap,
    /// The rectangles of the two vertices, the lesser first, share a side of positive length, and the
    /// vertices are not adjacent; or the other way round.
    Contact(VertexId, VertexId),
    /// Vertex 0 has no neighbour, or the face of its first dart is not walked by four darts over four vertices.
    NoFrame,
    /// The vertex is the first of that face whose rectangle is not at its end: the first at the left, the
    /// second along the top, the third at the right, the fourth along the bottom.
    Frame(VertexId),
    /// There is no fault.
    Yes,
}
