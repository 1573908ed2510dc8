//! Schnyder's regions (1990) over a run of insertions: three for each vertex, bounded by two of its paths each.
//! A face has one of three shades for a vertex, the number of the region that contains it. A vertex lies on one of
//! three sides, which is the region without one of its two paths. The law is the contract of a function that does
//! nothing, and speaks of all runs. Vertices are numbered in the order in which the run places them.

ghost use Rattle.wood_runs.specs.Laws.{RegionsNested};

/// States the law that where a vertex lies in a region of another, its own region of that colour is part of it.
pub fn regions_nested()
    ensures { RegionsNested }
{}
