//! Boxes over a run of insertions: a rectangular dual (Kant, He 1997), of the run alone and of no map. Each
//! law is the contract of a function that does nothing. The first two vertices of the run are the left one and
//! the bottom of the frame, the last but one is at the right, and the last lies on top.

ghost use Rattle.rect_runs.specs.RectBoxesLaws.{BoxesAreDual};

/// States the law that the boxes of m vertices fill a grid of at most m - 2 by m - 2. No two overlap, and their areas
/// sum to that of the grid. Two of them share a side of positive length exactly where their vertices are joined. The
/// first vertex is at the left, the second along the bottom, the last but one at the right, and the last along the top.
pub fn boxes_are_dual()
    ensures { BoxesAreDual }
{}
