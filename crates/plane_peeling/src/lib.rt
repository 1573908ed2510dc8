//! Laws of peeling: vertices taken off a plane map from its outer cycle, one by one. Each law is the contract of a
//! function that does nothing, and speaks of all maps.
#![tactic(auto)]

ghost use Rattle.plane_peeling.specs.Laws.{RemovableTakenOff, NothingTakenOff, OuterCycleIsFace, SomeRemovable};

/// States the law that the darts of an outer cycle are those of the face of its base, and no others.
pub fn outer_cycle_is_face()
    ensures { OuterCycleIsFace }
{}

/// States the law that in a map of genus zero with an outer cycle some vertex of the cycle, other than the two ends of
/// the base, has no chord. Of its neighbours only those before and after it are on the cycle.
pub fn some_removable()
    ensures { SomeRemovable }
{}

/// States the law that a triangulation of which nothing is taken off is a near triangulation, whose outer cycle is the
/// face of the base.
pub fn nothing_taken_off()
    ensures { NothingTakenOff }
{}

/// States the law that a vertex of the outer cycle without a chord can be taken off while more than three vertices are
/// left. A near triangulation is left, with one vertex less, and its outer cycle has the neighbours of that vertex in
/// its place. Each two of them that follow one another are a face of the whole map with it.
pub fn removable_taken_off()
    ensures { RemovableTakenOff }
{}
