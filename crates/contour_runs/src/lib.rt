//! Laws of construction sequences (runs), which build up a map by adding vertices from outside over intervals of the
//! contour. A run begins with the two vertices of the map's base.
//! In the general form a step adds a face of any size. Methods of drawing rest on such runs. The definitions speak of
//! positions on the contour alone, and of no map; each law is the contract of a function that does nothing.
#![tactic(auto)]

pub mod wood_points;

ghost use Rattle.contour_runs.specs.Laws.{CoveredOnce, FaceCount, ListsAreRun};
ghost use Rattle.contour_runs.specs.Fans.{RunOfFans};

/// States the law that a placed vertex stands on the contour in the end, or just one step has covered it.
pub fn covered_once()
    ensures { CoveredOnce }
{}

/// States the law that a run of n steps to a contour of w vertices makes 2n + 2 - w faces.
pub fn face_count()
    ensures { FaceCount }
{}

/// States the law on lists of vertices, each of which has one new vertex in place of all that was strictly between two
/// vertices of the list before. They are the contours of a run. The faces of the run are those of each new vertex with
/// two that follow one another under it. In this form an order of the vertices of a map is a run.
pub fn lists_are_run()
    ensures { ListsAreRun }
{}

/// States the law that a run of insertions is a run that makes faces of any size. There each step joins its vertex to
/// all places of the contour from the first to the last. Both runs have equal stages and equal faces.
pub fn run_of_fans()
    ensures { RunOfFans }
{}
