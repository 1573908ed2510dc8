//! The least two depths at which what returns from each vertex ends, and by these the place of each stack in nesting order.
ghost use Rattle.std.specs.Prelude.{◌+◌, ◌≤◌, length};

use crate::vertex_forks::{VertexForks, entry};
use chained_lists::ChainedLists;
use std::alloc::AllocError;

/// Stands for no depth.
const NONE: u16 = u16::MAX;

/// For each vertex the least two depths at which edges end that return from it or from below it, or `NONE`.
#[derive(Drop)]
struct LeastEnds {
    first: Vec<u16>,
    second: Vec<u16>,
}

impl LeastEnds {
    // Notes that an edge that returns from `v` or from below it ends at `depth`.
    fn note(&mut self, v: usize, depth: u16) {
        if v >= self.first.len() || v >= self.second.len() {
            return;
        }
        let least = self.first[v];
        if depth < least {
            self.second[v] = least;
            self.first[v] = depth;
            return;
        }
        if least < depth && depth < self.second[v] {
            self.second[v] = depth;
        }
    }
}

impl<'a> VertexForks<'a> {
    // Returns the depth of the parent of `u`, or 0 where it has none.
    fn upper_depth(&self, u: usize) -> u16 {
        entry(self.depths, usize::from(entry(self.parents, u)))
    }

    // Notes for the parent of `v` what returns from below it by `v`.
    fn pass_on(&self, ends: &mut LeastEnds, v: usize) {
        let parent = usize::from(entry(self.parents, v));
        let top = self.upper_depth(v);
        let least = entry(&ends.first, v);
        if least < top {
            ends.note(parent, least);
        }
        let second = entry(&ends.second, v);
        if second < top {
            ends.note(parent, second);
        }
    }

    // Notes for each vertex where the edges end that return from it.
    fn note_edges(&self, ends: &mut LeastEnds) {
        for x in 0..self.darts.len() {
            let dart = self.darts[x];
            let v = usize::from(dart.0);
            if dart.1 != entry(self.parents, v) {
                ends.note(v, entry(self.heights, x));
            }
        }
    }

    // Returns the least two depths for each vertex. In `order` each vertex comes behind its parent. It fails only when out of
    // memory.
    fn least_ends(&self, order: &[u16]) -> Result<LeastEnds, AllocError> {
        let first = vec![in self.alloc; NONE; self.parents.len()]?;
        let second = vec![in self.alloc; NONE; self.parents.len()]?;
        let mut ends = LeastEnds { first, second };
        self.note_edges(&mut ends);
        for k in 0..order.len() {
            let v = order[order.len() - 1 - k];
            self.pass_on(&mut ends, usize::from(v));
        }
        Ok(ends)
    }

    // Returns the key of the stack `p` in nesting order: by the least depth of an end, those of one depth alone first.
    fn key(&self, ends: &LeastEnds, p: usize) -> usize {
        if p < self.darts.len() {
            return 2 * usize::from(entry(self.heights, p));
        }
        let u = p - self.darts.len();
        let least = 2 * usize::from(entry(&ends.first, u));
        if entry(&ends.second, u) < self.upper_depth(u) {
            return least + 1;
        }
        least
    }

    /// Returns how many keys there are in nesting order.
    pub(crate) fn keys(&self) -> u16 {
        let count = self.parents.len();
        if count < 32768 {
            2 * (count as u16)
        } else {
            NONE
        }
    }

    /// Returns a list for each key in nesting order, behind one for each stack, with all stacks of this key. In `order` each
    /// vertex comes behind its parent. It fails only when out of memory.
    pub(crate) fn stacks_by_key(&self, order: &[u16]) -> Result<ChainedLists, AllocError>
        requires { length self.now.darts.now + length self.now.parents.now ≤ 65535 }
    {
        let ends = self.least_ends(order)?;
        let count = self.stacks();
        let keys = self.keys();
        let mut lists = ChainedLists::new(self.alloc, count as u16, keys)?;
        for p in 0..count {
            let key = self.key(&ends, p);
            if key < usize::from(keys) {
                lists.join(count + key, p);
            }
        }
        Ok(lists)
    }
}
