//! A witness to be lifted, and the trial of one change, which the witness check decides.
ghost use Rattle.std.specs.Prelude.{IfOk, MatchOption};
ghost use Rattle.kuratowski.specs.Witnesses.{IsWitness};
ghost use Rattle.embed_witnesses.specs.Changes.{IsRight};

use crate::lifted_witnesses::change_kinds::Change;
use crate::lifted_witnesses::changed_witness::changed;
use graphs::Graph;
use kuratowski::{Witness, check_witness};
use map_lists::Ends;
use std::alloc::{AllocError, Global};

/// A witness on old numbers, which is to be changed at the ends of an edge so that it is one of a graph.
#[derive(Clone, Copy)]
pub(crate) struct Lifting<'a> {
    pub alloc: Global,
    pub graph: &'a Graph,
    pub old: &'a Witness,
    pub e: Ends,
}

impl Lifting<'_> {
    /// Returns `old` with `change` made if it is a witness of the graph then, else None. Fails only when out of memory.
    pub(crate) fn tried(&self, change: Change) -> Result<Option<Witness>, AllocError>
        ensures { IfOk result (λ found. MatchOption found (¬ IsRight self.now.graph.now self.now.old.now change) (λ w. IsWitness self.now.graph.now w.kind w.branch w.paths)) }
    {
        let new = changed(self.alloc, self.old, change)?;
        if check_witness(self.graph, &new).is_yes() {
            Ok(Some(new))
        } else {
            Ok(None)
        }
    }
}
