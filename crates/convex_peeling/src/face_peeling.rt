//! Laws on faces that are taken off a polyhedral map from its contour: there is always one that may go next. Each law
//! is the contract of a function that does nothing, and speaks of all maps.

ghost use Rattle.convex_peeling.specs.FacePeelingLaws.{SomeRemovable, SomeTakenOff};

/// States the law that in a polyhedral map the whole contour is of the face inside of the base, or some vertex may go
/// next. An edge at it is taken off, and each face at it meets the contour in one interval.
pub fn some_removable()
    ensures { SomeRemovable }
{}

/// States the law that a polyhedral map whose vertices have three neighbours or more has a removal. So it is until the
/// whole contour is of the face inside of the base. Off go the vertices along a face, or a vertex with all its faces.
pub fn some_taken_off()
    ensures { SomeTakenOff }
{}
