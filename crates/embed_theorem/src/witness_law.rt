//! Law of Kuratowski witnesses: a graph with a witness has no map of genus zero.

ghost use Rattle.embed_theorem.specs.Refuted.{WitnessesRefute};

/// States the law that if a graph has a witness, no simple map of genus zero has all its edges; so none has just these.
pub fn witnesses_refute()
    ensures { WitnessesRefute }
{}
