//! The verdicts on figures of all kinds, as the type `FigureVerdict`.

use bar_check::BarVerdict;
use convex_check::ConvexVerdict;
use draw_check::Verdict;
use half_edges::{MapFault, VertexId};
use kuratowski::WitnessVerdict;
use rect_check::RectVerdict;

/// The verdict on a figure.
#[derive(Clone, Copy, PartialEq, Eq)]
pub enum FigureVerdict {
    /// Its lists are no simple map, and this is their first fault, which is not out of memory.
    Refused(MapFault),
    /// The straight-line drawing has this fault first, which is not `Yes`.
    Drawing(Verdict),
    /// The drawing has no fault, but the map is connected, and this is the least dart, by its tail and then by
    /// its head, whose face is not that of the first vertex's first dart and has an area that is not positive.
    Inside(VertexId, VertexId),
    /// The straight-line drawing, which is to be convex, has no other fault, but bends thus, which is not `Yes`.
    Convex(ConvexVerdict),
    /// The visibility drawing has this fault first, which is not `Yes`.
    Bars(BarVerdict),
    /// The rectangular dual has this fault first, which is not `Yes`.
    Rects(RectVerdict),
    /// The witness has this fault first, which is not `Yes`.
    Witness(WitnessVerdict),
    /// The figure is valid.
    Yes,
}
