//! Tries all ways to split a witness of K5 into one of K3,3 at an end of the contracted edge.
ghost use Rattle.std.specs.Prelude.{◌<◌, ℕ, IfOk, MatchOption};
ghost use Rattle.kuratowski.specs.Witnesses.{IsWitness};
ghost use Rattle.embed_witnesses.specs.Changes.{IsRight};

use crate::lifted_witnesses::change_kinds::{Change, Splitting};
use crate::lifted_witnesses::tried_changes::Lifting;
use kuratowski::Witness;
use std::alloc::AllocError;

impl Lifting<'_> {
    /// Tries all splits of the old witness of K5 in which the greater end of the edge takes over two paths of the
    /// lesser. Returns the first that is a witness of the graph, or None if none is. It fails only when out of memory.
    pub(crate) fn split(&self) -> Result<Option<Witness>, AllocError>
        ensures { IfOk result (λ found. MatchOption found ((order : ℕ) → order < 3125 → ¬ IsRight self.now.graph.now self.now.old.now (Change.Split (record { a = self.now.e.a.0; b = self.now.e.b.0; order = order }))) (λ w. IsWitness self.now.graph.now w.kind w.branch w.paths)) }
    {
        for order in 0..3125u32 {
            let change = Change::Split(Splitting {
                a: self.e.a.0,
                b: self.e.b.0,
                order,
            });
            match self.tried(change)? {
                Some(w) => return Ok(Some(w)),
                None => {}
            }
        }
        Ok(None)
    }
}
