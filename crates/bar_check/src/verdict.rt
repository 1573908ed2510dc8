//! The verdicts of the check of a visibility drawing, as the type `BarVerdict`.

use half_edges::{Ends, VertexId};

/// The first fault of a visibility drawing, with the least ids, or `Yes` where it has none. Kinds of fault come in the
/// order in which they stand here.
#[derive(Clone, Copy, PartialEq, Eq)]
pub enum BarVerdict {
    /// There are not as many columns as edges.
    BadShape,
    /// The height of the vertex is not from 0 to n - 1, or a lesser vertex has it.
    BadHeight(VertexId),
    /// The bar of the vertex does not go from left to right within the width.
    BadBar(VertexId),
    /// The column of the edge does not lie within the width and within the bars of both ends.
    BadColumn(Ends),
    /// The vertex stands strictly between the ends of the edge in height, and its bar holds the column.
    Through(Ends, VertexId),
    /// The two edges, the earlier first, have one column and a height strictly inside both. A check never
    /// answers so, since one of them would go through an end of the other.
    Overlap(Ends, Ends),
    /// The vertex's list is not cyclically its upward edges by rising column, then its downward ones by falling column.
    Turned(VertexId),
    /// There is no fault.
    Yes,
}
