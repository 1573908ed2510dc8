//! Rotation lists with one edge added, each of its two entries directly after a given one.
ghost use Rattle.std.specs.Prelude.{◌≡◌, ◌≤◌, ◌+◌, ◌++◌, ◌∷◌, [], ℕ, length, slice_index_or, IfOk, OnOk};
ghost use Rattle.std.specs.List.{insert};
ghost use Rattle.map_theory.specs.Maps.{place_of as place_of_entry};
ghost use Rattle.plane_laws.specs.WithEdge.{row_with_edge, with_edge_after as lists_with_edge};

use map_lists::{ItemLists, Rotations};
use std::alloc::{AllocError, Global};

// An edge to add between `u` and `v`: at `u` it stands directly after `a`, and at `v` directly after `c`.
#[derive(Clone, Copy)]
struct NewEdge {
    u: u16,
    a: u16,
    v: u16,
    c: u16,
}

impl NewEdge {
    // Appends to `new` the list `us` of vertex `w`, with the edge if it ends at `w`. Fails only when out of memory.
    fn push_row(
        &self,
        alloc: Global,
        new: &mut ItemLists<u16>,
        us: &[u16],
        w: usize,
    ) -> Result<(), AllocError>
        ensures { OnOk result (new.new ≡ new.old ++ row_with_edge self.now.u self.now.a self.now.v self.now.c w us.now ∷ []) }
    {
        if w == self.v as usize {
            push_with(alloc, new, us, self.c, self.u)
        } else if w == self.u as usize {
            push_with(alloc, new, us, self.a, self.v)
        } else {
            new.push(us)
        }
    }
}

/// Returns the lists with a new edge between `u` and `v`. `v` stands directly after `a` in the list of `u`, and `u`
/// directly after `c` in that of `v`. With no such entry the vertex stands last. Fails only when out of memory.
pub fn with_edge_after(
    alloc: Global,
    lists: &Rotations,
    u: u16,
    a: u16,
    v: u16,
    c: u16,
) -> Result<Rotations, AllocError>
    ensures { IfOk result (λ new. new ≡ lists_with_edge lists.now u a v c) }
{
    let mut new = ItemLists::with_capacity(alloc, lists.total(), lists.len())?;
    let edge = NewEdge { u, a, v, c };
    for w in 0..lists.len() {
        edge.push_row(alloc, &mut new, lists.list(w), w)?;
    }
    Ok(Rotations::from_lists(new))
}

// Appends to `new` the list `us` with the entry `x` directly after its first `a`, or at its end where it has none. It
// fails only when out of memory.
fn push_with(
    alloc: Global,
    new: &mut ItemLists<u16>,
    us: &[u16],
    a: u16,
    x: u16,
) -> Result<(), AllocError>
    ensures { OnOk result (new.new ≡ new.old ++ insert us.now (place_of_entry a us.now + 1) x ∷ []) }
{
    let mut row = Vec::new(alloc);
    row.extend_from_slice(us)?;
    row.insert(place_after(us, a), x)?;
    new.push(&row)
}

// Returns the index after the first `a` of the list `us`, or its length where it has none.
fn place_after(us: &[u16], a: u16) -> usize
    ensures within { result ≤ length us.now }
    ensures place { (x : ℕ) → insert us.now result x ≡ insert us.now (place_of_entry a us.now + 1) x }
{
    for i in 0..us.len() {
        if us[i] == a {
            return i + 1;
        }
    }
    us.len()
}
