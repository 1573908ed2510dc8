//! The verdicts of the checks of straight-line drawings, as the types `Verdict`, `FaceVerdict` and `OuterVerdict`.

use half_edges::{Ends, VertexId};

/// The first fault of a drawing with the least ids, in the order in which the kinds of fault stand here,
/// or `Yes` where it has none.
#[derive(Clone, Copy, PartialEq, Eq)]
pub enum Verdict {
    /// The vertex lies outside the grid.
    OutOfGrid(VertexId),
    /// The two vertices, the lesser first, have equal points.
    SamePlace(VertexId, VertexId),
    /// The vertex lies on the edge, of which it is no end.
    OnEdge(VertexId, Ends),
    /// The two edges, the earlier first, have no end in common and cross.
    Cross(Ends, Ends),
    /// The directions to the vertex's neighbours do not go clockwise once round in the order of its list.
    Turned(VertexId),
    /// There is no fault.
    Yes,
}

/// Whether the faces of a drawing of a triangulation are drawn as they should be.
#[derive(Clone, Copy, PartialEq, Eq)]
pub enum FaceVerdict {
    /// The least vertex outside the grid.
    OutOfGrid(VertexId),
    /// All points lie in the grid, and this is the least face walk, written from its least vertex, that is
    /// not counterclockwise, or not clockwise for the face left of the base.
    Wrong(VertexId, VertexId, VertexId),
    /// There is no such vertex and no such face.
    Yes,
}

/// Whether the face left of a base dart is the outer one of a drawing.
#[derive(Clone, Copy, PartialEq, Eq)]
pub enum OuterVerdict {
    /// The map is connected, and this is the least dart, by its tail and then by its head, whose face is
    /// not the base's and has an area that is not positive.
    Inside(VertexId, VertexId),
    /// The map is not connected, or there is no such dart.
    Yes,
}
