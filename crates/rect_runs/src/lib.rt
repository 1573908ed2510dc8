//! Theory of construction sequences for rectangular duals (Kant, He 1997): horizontal and vertical edges of the
//! contour, and the sides of boxes. The definitions speak of places of the contour alone, and of no map; each law is
//! the contract of a function that does nothing.
#![tactic(auto)]

pub mod rect_boxes;
pub mod rect_ends;

ghost use Rattle.rect_runs.specs.Corners.{CornersFollow};
ghost use Rattle.rect_runs.specs.Later.{TwoLaterSort};

/// States the law that no horizontal contour edge comes before a vertical one under any step, if each covered vertex
/// has two later neighbours, being under an earlier step too. So an order of a map gives the other laws' premise.
pub fn two_later_sort()
    ensures { TwoLaterSort }
{}

/// States the law that at each corner of each face that a step makes the second edge has the label of the first, or the
/// next one clockwise. The order is runs in, rises out, runs out, rises in.
pub fn corners_follow()
    ensures { CornersFollow }
{}
