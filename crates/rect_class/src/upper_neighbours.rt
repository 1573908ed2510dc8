//! For each vertex its neighbours of no lower degree. In a plane map that list is short, also at a hub, so that it soon
//! shows whether two vertices are adjacent.
ghost use Rattle.std.specs.Prelude.{◌≡◌, ◌<◌, ◌↔◌, ◌++◌, length, IsTrue, IfOk, Contains, All};
ghost use Rattle.std.specs.List.{filter};
ghost use Rattle.map_theory.specs.Maps.{HasDart, IsSimpleMap, list_of};
ghost use Rattle.rect_class.specs.Upper.{has_degree as the_test, AreUpperRows};

use half_edges::{HalfMap, Rotations, VertexId};
use std::alloc::{AllocError, Global};

// Says whether vertex `u` has at least `degree` neighbours.
fn has_degree(lists: &Rotations, degree: usize, u: u16) -> bool
    requires { u < length lists.now }
    ensures { result ≡ the_test lists.now degree u }
{
    degree <= lists.list(usize::from(u)).len()
}

// Appends to `entries` those of a vertex's neighbours `us` that have no lower degree. It fails only when out of memory.
fn put_row(entries: &mut Vec<u16>, lists: &Rotations, us: &[u16]) -> Result<(), AllocError>
    requires { All (λ u. u < length lists.now) us.now }
    ensures { IfOk result (λ _. entries.new.items ≡ entries.old.items ++ filter (the_test lists.now (length us.now)) us.now) }
{
    for u in us {
        if has_degree(lists, us.len(), *u) {
            entries.push(*u)?;
        }
    }
    Ok(())
}

/// Lists for each vertex of a simple map its neighbours of no lower degree. It fails only when out of memory.
pub(crate) fn upper_rows(alloc: Global, lists: &Rotations) -> Result<Rotations, AllocError>
    requires { IsSimpleMap lists.now }
    ensures { IfOk result (AreUpperRows lists.now) }
{
    let mut entries = Vec::with_capacity(alloc, lists.total())?;
    let mut ends = Vec::with_capacity(alloc, lists.len())?;
    for v in 0..lists.len() {
        put_row(&mut entries, lists, lists.list(v))?;
        ends.push(entries.len())?;
    }
    Ok(Rotations::from_parts(entries, ends))
}

/// Says whether `v` is in list `u` of `rows`.
pub(crate) fn has_upper(rows: &Rotations, u: VertexId, v: VertexId) -> bool
    requires { u.0 < length rows.now }
    ensures { IsTrue result ↔ Contains (list_of rows.now u.0) v.0 }
{
    rows.list(usize::from(u.0)).contains(&v.0)
}

/// A map, and for each of its vertices the list of its neighbours of no lower degree.
#[derive(Clone, Copy)]
pub(crate) struct Upper<'a> {
    pub(crate) map: &'a HalfMap,
    pub(crate) rows: &'a Rotations,
    ghost upper: { AreUpperRows map.now.lists rows.now },
}

impl Upper<'_> {
    // Says whether `u` and `v` are adjacent, by the list of the one of lower degree.
    pub(crate) fn are_adjacent(&self, u: VertexId, v: VertexId) -> bool
        requires u { u.0 < length self.now.map.now.lists }
        requires v { v.0 < length self.now.map.now.lists }
        ensures { IsTrue result ↔ HasDart self.now.map.now.lists u.0 v.0 }
    {
        if self.map.degree(u) <= self.map.degree(v) {
            has_upper(self.rows, u, v)
        } else {
            has_upper(self.rows, v, u)
        }
    }
}
