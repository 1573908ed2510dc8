//! Law: a witness has only single edges as paths, or some edge can be contracted so that a witness stays.

ghost use Rattle.embed_witnesses.specs.Kept.{PlainOrKept};

/// States the law that all paths of a witness of a graph are single edges, or contracting some edge keeps a witness.
pub fn plain_or_kept()
    ensures { PlainOrKept }
{}
