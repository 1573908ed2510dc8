//! Laws that lift Kuratowski witnesses from a graph with an edge contracted, or with a path in place of an edge.

ghost use Rattle.embed_contraction.specs.Contracted.{LiftedContraction, LiftedWitness};
ghost use Rattle.embed_contraction.specs.Routed.{RoutedWitness};

/// States the law that where a graph with an edge contracted has a Kuratowski witness, the graph has one. It is of the
/// same kind, or of K3,3 in place of K5.
pub fn lifted_witness()
    ensures { LiftedWitness }
{}

/// States the law of [`lifted_witness`] where the greater end of the edge leaves and later numbers fall by one.
pub fn lifted_contraction()
    ensures { LiftedContraction }
{}

/// States the law that a witness of a graph gives one of each graph with all its edges but maybe one. A path of the
/// second must join the ends of that edge over vertices without edges in the first.
pub fn routed_witness()
    ensures { RoutedWitness }
{}
