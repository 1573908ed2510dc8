//! An order of all vertices, as the type `Order`: a list of the vertices and its inverse, the rank of each.
ghost use Rattle.std.specs.Prelude.{◌≡◌, ◌≢◌, ◌<◌, map, length, All, AllPairs, IfOk};
ghost use Rattle.canon_order.specs.Ranks.{IsRankOf};

use crate::vertex_list_tools::ranks_of;
use half_edges::{Counts, VertexId, VertexList};
use std::alloc::{AllocError, Global};

/// An order of a map's vertices, and its inverse.
#[derive(Drop)]
pub struct Order {
    /// The vertices, one after another, all of them once.
    pub at: VertexList,
    /// For each vertex, by its number, its index in `at`, from 0.
    pub rank: Counts,
    pub ghost ranked: { IsRankOf rank (map (λ v. v.0) at) },
}

impl Order {
    // Returns the order of no vertices. It takes no memory.
    pub(crate) fn new(alloc: Global) -> Order {
        Order {
            at: VertexList::new(alloc),
            rank: Counts::new(alloc),
        }
    }

    // Returns the order of the vertices `at`, all of them once, with their ranks in the memory of `spent`.
    #[inline(always)]
    pub(crate) fn of(at: Vec<VertexId>, spent: Counts) -> Result<Order, AllocError>
        requires few { length at.items < 4096 }
        requires within { All (λ v. v < length at.items) (map (λ v. v.0) at.items) }
        requires distinct { AllPairs ◌≢◌ (map (λ v. v.0) at.items) }
        ensures { IfOk result (λ order. map (λ v. v.0) order.at ≡ map (λ v. v.0) at.items) }
    {
        let rank = ranks_of(spent, &at)?;
        Ok(Order {
            at: VertexList::from_vec(at),
            rank,
        })
    }
}
