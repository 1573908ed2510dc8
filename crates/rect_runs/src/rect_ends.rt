//! How the edges of a rectangular run stand at their ends: which way they lead, and in which order they come round a
//! vertex. Each law is the contract of a function that does nothing.

ghost use Rattle.rect_runs.specs.Ends.{CornersOfFaces, OneEnd, EndsAgree, FrameEnds, EdgesMeet};
ghost use Rattle.rect_runs.specs.Rounds.{OnceRound};

/// States the law of the corners of a face that a step makes, except at the base. At each corner the second edge has
/// the label of the first, or the next label clockwise.
pub fn corners_of_faces()
    ensures { CornersOfFaces }
{}

/// States the law that an edge has one label at each of its ends.
pub fn one_end()
    ensures { OneEnd }
{}

/// States the law that an edge leaves at one end exactly as it enters at the other: both ends agree that it is
/// horizontal or vertical.
pub fn ends_agree()
    ensures { EndsAgree }
{}

/// States the law that the four outer vertices have edges with one label each, apart from edges between them. Runs
/// (horizontal) leave the first, rises (vertical) the second, runs enter the last but one, and rises the last.
pub fn frame_ends()
    ensures { FrameEnds }
{}

/// States the law that the boxes of neighbours meet at their edge. Along a run (horizontal) the one ends on the right
/// where the other begins, and along a rise (vertical) it ends above where the other begins.
pub fn edges_meet()
    ensures { EdgesMeet }
{}

/// States the law that labels round a vertex, each of which may follow the one before, come once round if they pass
/// only once from entering runs to leaving rises.
pub fn once_round()
    ensures { OnceRound }
{}
