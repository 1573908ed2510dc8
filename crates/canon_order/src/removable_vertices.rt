//! The next vertex to peel off a triangulation: one of the outer cycle with just two neighbours on that cycle.
ghost use Rattle.std.specs.Prelude.{◌≡◌, ◌≢◌, ◌<◌, ◌↔◌, ℕ, true, [], ◌∷◌, length, Contains, IsTrue, IfOk};
ghost use Rattle.canon_order.specs.Marks.{is_set, IsUnmarked};
ghost use Rattle.canon_order.specs.Contours.{LooksRemovable, IsPrepared};

use crate::cycle_marks::Three;
use crate::triangulation_base::Base;
use std::alloc::AllocError;

// Says whether `v` may be peeled off: it is on the outer cycle, is no end of the base, and has two neighbours there.
// `marked` has the marks of the cycle, `near` for each vertex how many neighbours are on it.
fn is_removable(marked: &[bool], near: &[u16], base: &Base<'_>, v: u16) -> bool
    requires { (v < length marked.now) × (v < length near.now) }
    ensures { IsTrue result ↔ LooksRemovable base.now.t base.now.s marked.now near.now v }
{
    let is_marked = marked[v as usize];
    let count = near[v as usize];
    is_marked && v != base.t && v != base.s && count == 2
}

// Pops from `stack` until its top is a vertex that may be peeled off, and returns that one. There must be such a
// vertex, and `stack` has all of them. `marked` and `near` are as in `is_removable`.
pub(crate) fn removable_vertex(
    marked: &[bool],
    near: &[u16],
    stack: &mut Vec<u16>,
    base: &Base<'_>,
) -> u16
    requires prepared { IsPrepared base.now.lists.now base.now.t base.now.s marked.now near.now stack.old.items }
    requires some { (v : ℕ) × LooksRemovable base.now.t base.now.s marked.now near.now v }
    ensures removable { LooksRemovable base.now.t base.now.s marked.now near.now result }
    ensures vertex { result < length base.now.lists.now }
    ensures prepared { IsPrepared base.now.lists.now base.now.t base.now.s marked.now near.now stack.new.items }
{
    while stack.len() > 0 {
        let v = stack[stack.len() - 1];
        if is_removable(marked, near, base, v) {
            return v;
        }
        stack.pop();
    }
    base.t
}

// Marks the three vertices of the face on the left of the base in `marked`, and counts each vertex's marked neighbours
// in `near`. Pushes the third one, which alone may be peeled off, on `stack`. All is unset or empty before.
pub(crate) fn mark_base(
    marked: &mut [bool],
    near: &mut [u16],
    stack: &mut Vec<u16>,
    base: &Base<'_>,
) -> Result<(), AllocError>
    requires unmarked { IsUnmarked base.now.lists.now marked.old near.old }
    requires empty { stack.old.items ≡ [] }
    ensures prepared { IfOk result (λ _. IsPrepared base.now.lists.now base.now.t base.now.s marked.new near.new stack.new.items) }
    ensures marked { (u : ℕ) → (is_set marked.new u ≡ true) ↔ Contains (base.now.s ∷ base.now.third ∷ base.now.t ∷ []) u }
{
    base.facts();
    let three = Three {
        lists: base.lists,
        first: base.s,
        second: base.third,
        third: base.t,
    };
    three.mark_all(marked, near);
    stack.push(base.third)?;
    Ok(())
}
