//! Tries to put an end of the contracted edge into each step of each path of a witness.
ghost use Rattle.std.specs.Prelude.{◌≤◌, ◌<◌, ℕ, IfOk, MatchOption};
ghost use Rattle.kuratowski.specs.Witnesses.{IsWitness};
ghost use Rattle.embed_witnesses.specs.Changes.{step_count as steps_of, IsRight};

use crate::lifted_witnesses::change_kinds::{Change, Mending};
use crate::lifted_witnesses::changed_vertices::step_count;
use crate::lifted_witnesses::tried_changes::Lifting;
use kuratowski::Witness;
use std::alloc::AllocError;

impl Lifting<'_> {
    /// Tries the old witness with an end of the edge put into each step, or into none; if `exchange` is set, the ends
    /// are exchanged first. Returns the first that is a witness of the graph, or None. Fails only when out of memory.
    pub(crate) fn mended(&self, exchange: bool) -> Result<Option<Witness>, AllocError>
        ensures { IfOk result (λ found. MatchOption found ((path place : ℕ) → path < 11 → place ≤ steps_of self.now.old.now.paths path → ¬ IsRight self.now.graph.now self.now.old.now (Change.Mended (record { exchange = exchange; a = self.now.e.a.0; b = self.now.e.b.0; path = path; place = place }))) (λ w. IsWitness self.now.graph.now w.kind w.branch w.paths)) }
    {
        for path in 0..11usize {
            for place in 0..step_count(&self.old.paths, path) + 1 {
                let change = Change::Mended(Mending {
                    exchange,
                    a: self.e.a.0,
                    b: self.e.b.0,
                    path,
                    place,
                });
                match self.tried(change)? {
                    Some(w) => return Ok(Some(w)),
                    None => {}
                }
            }
        }
        Ok(None)
    }
}
