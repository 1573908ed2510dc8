//! Law: which edges of a three-connected graph can be contracted, by separating triples.
ghost use Rattle.embed_witnesses.specs.Contractible.{ContractedExactly};

/// States the law of contractible edges of a three-connected graph with at least five vertices. Contracting an edge
/// leaves a three-connected graph exactly where no third vertex separates the others together with its ends.
pub fn contracted_exactly()
    ensures { ContractedExactly }
{}
