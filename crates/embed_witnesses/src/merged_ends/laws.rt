//! Law: the graph with the ends of an edge merged stands for the graph with that edge contracted.
ghost use Rattle.embed_witnesses.specs.Merged.{MergedIsContracted};

/// States the law that the graph with the ends of an edge merged stands for the graph with the edge contracted. Each of
/// its edges is one of the graph, or one of the greater end in place of the lesser.
pub fn merged_is_contracted()
    ensures { MergedIsContracted }
{}
