//! The closed path that bounds a region of a Schnyder wood: made, and asked for edges and vertices.
ghost use Rattle.std.specs.Prelude.{◌≡◌, ◌<◌, ◌⊎◌, ◌↔◌, ℕ, IsTrue, IfOk, length, slice_index};
ghost use Rattle.wood_runs.specs.Parents.{next, previous};
ghost use Rattle.schnyder_wood.specs.Parents.{kind, count_in, parent_in, IsInnerIn};
ghost use Rattle.schnyder_wood.specs.Boundaries.{NotesPath};
ghost use Rattle.schnyder_wood.specs.ClosedPaths.{IsClosedPath, IsEdgeOf, IsVertexOf};

use crate::schnyder_regions::closed_paths::ClosedPath;
use crate::{Colour, Wood};
use map_lists::VertexId;
use std::alloc::{AllocError, Global};

// Returns the parent in `wood` of the inner vertex `v` (no root) in `colour`.
fn parent_of(wood: &Wood, colour: Colour, v: VertexId) -> VertexId
    requires { IsInnerIn wood.now v.0 }
    ensures { result.0 ≡ parent_in wood.now (kind colour) v.0 }
{
    match wood.parent(colour, v) {
        Some(up) => up,
        None => unreachable!(),
    }
}

// Sets `ups[u]`, for each vertex `u` but the root on the path of `colour` in `wood` from the inner vertex `v` (no
// root), to the next vertex on it. Each entry of `ups`, one for each vertex, is its own vertex at first.
fn note_path(ups: &mut [u16], wood: &Wood, v: VertexId, colour: Colour)
    requires inner { IsInnerIn wood.now v.0 }
    requires count { length ups.old ≡ count_in wood.now }
    requires own { (u : ℕ) → u < length ups.old → slice_index ups.old u ≡ u }
    ensures { NotesPath wood.now (kind colour) v.0 ups.new }
{
    wood.facts();
    let root = wood.root(colour);
    let mut at = v;
    for passed in 0..wood.n() {
        let up = parent_of(wood, colour, at);
        ups[at.0 as usize] = up.0;
        if up.0 == root.0 {
            return;
        }
        at = up;
    }
    unreachable!()
}

// Returns the colour after `colour`, cyclically.
fn next_colour(colour: Colour) -> Colour
    ensures { kind result ≡ next (kind colour) }
{
    match colour {
        Colour::One => Colour::Two,
        Colour::Two => Colour::Three,
        Colour::Three => Colour::One,
    }
}

// Returns the colour before `colour`, cyclically.
fn previous_colour(colour: Colour) -> Colour
    ensures { kind result ≡ previous (kind colour) }
{
    match colour {
        Colour::One => Colour::Three,
        Colour::Two => Colour::One,
        Colour::Three => Colour::Two,
    }
}

// Returns a table of the path of `colour` in `wood` from the inner vertex `v`. It has for each vertex on it but the
// root the next one, and for all others themselves. It fails only when out of memory.
fn noted_path(
    alloc: Global,
    wood: &Wood,
    v: VertexId,
    colour: Colour,
) -> Result<Vec<u16>, AllocError>
    requires inner { IsInnerIn wood.now v.0 }
    ensures { IfOk result (λ ups. NotesPath wood.now (kind colour) v.0 ups.items) }
{
    let mut ups = Vec::new(alloc);
    for u in 0..wood.n() {
        ups.push(u)?;
    }
    note_path(&mut ups, wood, v, colour);
    Ok(ups)
}

// Returns the closed path of the region of the inner vertex `v` for `colour`. It fails only when out of memory.
pub(crate) fn closed_path(
    alloc: Global,
    wood: &Wood,
    v: VertexId,
    colour: Colour,
) -> Result<ClosedPath, AllocError>
    requires inner { IsInnerIn wood.now v.0 }
    ensures { IfOk result (IsClosedPath wood.now (kind colour) v.0) }
{
    let nexts = noted_path(alloc, wood, v, next_colour(colour))?;
    let previouses = noted_path(alloc, wood, v, previous_colour(colour))?;
    Ok(ClosedPath {
        nexts,
        previouses,
        next_root: wood.root(next_colour(colour)),
        previous_root: wood.root(previous_colour(colour)),
    })
}

// Says whether the edge between `x` and `y` is on the path of the table `ups`.
fn is_along(ups: &[u16], x: u16, y: u16) -> bool
    requires x_in { x < length ups.now }
    requires y_in { y < length ups.now }
    ensures { IsTrue result ↔ ((slice_index ups.now x ≡ y) ⊎ (slice_index ups.now y ≡ x)) }
{
    ups[x as usize] == y || ups[y as usize] == x
}

impl ClosedPath {
    // Does nothing. By its contract a proof learns that both tables are of one length.
    fn facts(&self)
        ensures { length self.now.previouses.items ≡ length self.now.nexts.items }
    {}

    // Says whether the edge between `x` and `y` is on the closed path: on one of its two paths, or between the roots.
    pub(crate) fn has_edge(&self, x: u16, y: u16) -> bool
        requires x_in { x < length self.now.nexts.items }
        requires y_in { y < length self.now.nexts.items }
        ensures { IsTrue result ↔ IsEdgeOf self.now x y }
    {
        self.facts();
        let a = self.next_root.0;
        let b = self.previous_root.0;
        is_along(&self.nexts, x, y)
            || is_along(&self.previouses, x, y)
            || (x == a && y == b)
            || (x == b && y == a)
    }

    // Says whether `u` is on the closed path: one of its two paths leads on from it, or it is a root.
    pub(crate) fn has_vertex(&self, u: u16) -> bool
        requires { u < length self.now.nexts.items }
        ensures { IsTrue result ↔ IsVertexOf self.now u }
    {
        self.facts();
        self.nexts[u as usize] != u
            || self.previouses[u as usize] != u
            || u == self.next_root.0
            || u == self.previous_root.0
    }
}
