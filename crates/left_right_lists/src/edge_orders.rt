//! An order of the edges of a fork by the sides of their return edges: one that may precede all others goes first.
ghost use Rattle.std.specs.Prelude.{◌≡◌, ◌<◌, ◌↔◌, ℕ, List, length, slice_index, IsTrue, IfOk, MatchOption};
ghost use Rattle.left_right_maps.specs.Orders.{MayAllPrecede};
ghost use Rattle.left_right_lists.specs.Sides.{side_in};
ghost use Rattle.left_right_lists.specs.Orders.{IsFree, IsFirst, IsOrderOf};

use crate::side_tables::is_left;
use left_right_check::entry;
use map_lists::ItemLists;
use std::alloc::{AllocError, Global};

// Says whether `free` has a flag for vertex `u` that is set: its edge has no position in the order yet.
fn is_free(free: &[bool], u: u16) -> bool
    ensures { IsTrue result ↔ IsFree free.now u }
{
    let u = usize::from(u);
    u < free.len() && free[u]
}

/// What orders the edges of a vertex: `returns` lists the return edges by each, and `sides` has their sides, in a table
/// for [`is_left`]. `depths` has the depth of each of the `n` vertices.
#[derive(Clone, Copy)]
pub(crate) struct Choice<'a> {
    pub depths: &'a [u16],
    pub sides: &'a [bool],
    pub returns: &'a ItemLists<(u16, u16)>,
    pub n: u16,
    ghost lists: { length returns.now ≡ n },
}

impl<'a> Choice<'a> {
    // Says whether each return edge of `ds` may precede each of `es`. One of `es` on the left, or one of `ds` on the
    // right, must not end deeper than the other.
    fn may_all_precede(&self, ds: &[(u16, u16)], es: &[(u16, u16)]) -> bool
        ensures { IsTrue result ↔ MayAllPrecede (slice_index self.now.depths.now) (side_in self.now.sides.now) ds.now es.now }
    {
        for d in ds {
            for e in es {
                let early = entry(self.depths, d.1);
                let late = entry(self.depths, e.1);
                if is_left(self.sides, *e) && early < late {
                    return false;
                }
                if !is_left(self.sides, *d) && late < early {
                    return false;
                }
            }
        }
        true
    }

    // Says whether the edge to `u` is flagged in `free`, and may precede all others that are.
    fn is_first(&self, free: &[bool], u: u16) -> bool
        requires { length free.now ≡ self.now.n }
        ensures { IsTrue result ↔ IsFirst self.now.depths.now self.now.sides.now self.now.returns.now free.now u }
    {
        if !is_free(free, u) {
            return false;
        }
        let ds = self.returns.list(usize::from(u));
        for f in 0..self.n {
            if f == u || !is_free(free, f) {
                continue;
            }
            if !self.may_all_precede(ds, self.returns.list(usize::from(f))) {
                return false;
            }
        }
        true
    }

    // Returns the least `u` whose edge is flagged in `free` and may precede all others that are, or None.
    fn first_free(&self, free: &[bool]) -> Option<u16>
        requires { length free.now ≡ self.now.n }
        ensures { MatchOption result ((u : ℕ) → ¬ IsFirst self.now.depths.now self.now.sides.now self.now.returns.now free.now u) (IsFirst self.now.depths.now self.now.sides.now self.now.returns.now free.now) }
    {
        for u in 0..self.n {
            if self.is_first(free, u) {
                return Some(u);
            }
        }
        None
    }

    /// Returns the vertices flagged in `free` (a flag for each vertex), in an order in which the edge to each may
    /// precede all later ones. There has to be such an order. It clears the flags. It fails only when out of memory.
    pub(crate) fn order_of(&self, alloc: Global, free: &mut [bool]) -> Result<Vec<u16>, AllocError>
        requires free { length free.old ≡ self.now.n }
        requires order { (us : List ℕ) × IsOrderOf self.now.depths.now self.now.sides.now self.now.returns.now free.old us }
        ensures { IfOk result (λ us. IsOrderOf self.now.depths.now self.now.sides.now self.now.returns.now free.old us.items) }
    {
        let mut order = Vec::new(alloc);
        while let Some(u) = self.first_free(free) {
            order.push(u)?;
            free[usize::from(u)] = false;
        }
        Ok(order)
    }
}
