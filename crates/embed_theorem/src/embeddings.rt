//! Kuratowski's theorem, as laws: a simple graph has a map of genus zero exactly where it has no Kuratowski witness.

ghost use Rattle.embed_theorem.specs.Embedding.{MapOrWitness, PlanarExactly};

/// States the law that each simple graph has a Kuratowski witness, or a map of genus zero with exactly its edges.
pub fn map_or_witness()
    ensures { MapOrWitness }
{}

/// States the law that a simple graph has a map of genus zero with its edges exactly if it has no Kuratowski witness.
pub fn planar_exactly()
    ensures { PlanarExactly }
{}
