//! The verdicts of the check of convexity, as the type `ConvexVerdict`.

use half_edges::VertexId;

/// Whether a drawing is convex over a base dart.
#[derive(Clone, Copy, PartialEq, Eq)]
pub enum ConvexVerdict {
    /// The least three consecutive vertices of the walk of another face than the base's that turn to the right.
    Bent(VertexId, VertexId, VertexId),
    /// No other face bends inwards, but the base's is no triangle whose corners are among its vertices.
    OuterBent,
    /// The drawing is convex.
    Yes,
}
