//! Law on closed walks in plane maps: how often chains of faces step over one tells on which side of it a face lies.

ghost use Rattle.convex_laws.specs.ClosedWalksLaws.{SidesAreKnown};

/// States the law that sides of a closed walk are known, in a connected map of genus zero. All chains of faces from one
/// dart to another step over the walk an odd number of times, or all an even one; and some chain leads there. An edge
/// that the walk passes twice counts twice.
pub fn sides_are_known()
    ensures { SidesAreKnown }
{}
