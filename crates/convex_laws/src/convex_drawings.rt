//! Laws: when the face counts of a construction sequence are a convex plane drawing of a map.

ghost use Rattle.convex_laws.specs.ConvexDrawings.{ConvexRunDraws, TouchedRunDraws};

/// States the law that the counts of a whole run draw a map. Each dart of the map is on a face of the run or on the
/// outer one. The drawing is plane and keeps the rotations, in the grid m by m for m inner faces. No inner face bends
/// inwards, and the outer one is a triangle with flat angles.
pub fn convex_run_draws()
    ensures { ConvexRunDraws }
{}

/// States the law of [`convex_run_draws`] for a run whose turns are read off the counts. Each vertex but the last and
/// the base's has to be an end of a step's interval before it comes strictly under a face or the run ends.
pub fn touched_run_draws()
    ensures { TouchedRunDraws }
{}
