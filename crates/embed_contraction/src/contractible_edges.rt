//! Law: a three-connected graph has an edge whose contraction leaves it three-connected (Thomassen's theorem).

ghost use Rattle.embed_contraction.specs.Linked.{ContractibleEdge};

/// States the law that a graph with an edge, in which no two vertices separate the others, has a contractible edge
/// (Thomassen's theorem). No third vertex separates the others together with the two ends of that edge.
pub fn contractible_edge()
    ensures { ContractibleEdge }
{}
