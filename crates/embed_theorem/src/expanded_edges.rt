//! Law of expanded edges: a map of a graph with an edge contracted gives a map of the graph, or a Kuratowski witness.

ghost use Rattle.embed_theorem.specs.Expanded.{ExpandedEdge};

/// States the law of expanded edges, where no two vertices separate the others and at least four have edges. A map of
/// genus zero of the graph with a contractible edge contracted gives a map of the graph, or a Kuratowski witness.
pub fn expanded_edge()
    ensures { ExpandedEdge }
{}
