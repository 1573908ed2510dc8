//! A sweep over the vertices of a straight-line drawing: its lines, its steps, and the law that a sweep
//! whose tests all pass shows that the drawing is plane.

ghost use Rattle.plane_drawings.specs.PlaneSweepLaw.{SweepIsKept, SweepIsPlane};

pub use line::Line;

mod line;

/// States the law that at each point of a sweep the status has exactly the lines that reach over the point, bottom up.
/// No earlier point stands on a line between its ends, and no line that ended before it crosses any.
pub fn sweep_is_kept()
    ensures { SweepIsKept }
{}

/// States the law that a drawing is plane if each step of a sweep from left to right over its vertices passes its
/// tests. Then vertices stand apart, none stands on an edge of which it is no end, and no two edges cross. It requires
/// nothing of the map but that it is simple.
pub fn sweep_is_plane()
    ensures { SweepIsPlane }
{}
