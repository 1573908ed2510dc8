//! Laws of Schnyder's coordinates (1990) over a construction sequence.
//! Each law is the contract of a function that does nothing, and speaks of all runs. Vertices are numbered in the order
//! in which the run adds them; all coordinates are naturals. Coordinates one and two of a vertex are x and y of the
//! drawing, in which the first vertex alone stands one to the left and one up.

ghost use Rattle.contour_runs.specs.WoodPointsLaws.{SpreadArea};
ghost use Rattle.contour_runs.specs.Gaps.{DifferencesKept};

/// States the law that vertices a, b and c stand counterclockwise in this case. By coordinates, a is right of b and not
/// above it, and c is below b and not right of a. The sum of c's two is less than a's and at most b's.
pub fn spread_area()
    ensures { SpreadArea }
{}

/// States the law that vertices under one place of the contour keep their differences over a step: all move with it.
pub fn differences_kept()
    ensures { DifferencesKept }
{}
