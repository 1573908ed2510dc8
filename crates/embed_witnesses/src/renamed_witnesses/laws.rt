//! Law: renaming keeps a witness.
ghost use Rattle.embed_witnesses.specs.Renamed.{RenamedWitness};

/// States the law that a witness of a graph, renamed one to one, is one of each graph with the graph's renamed edges.
pub fn renamed_witness()
    ensures { RenamedWitness }
{}
