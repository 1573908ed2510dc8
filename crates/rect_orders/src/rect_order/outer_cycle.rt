//! The outer cycle of the vertices that are left, and which of its vertices may be taken off next.
//!
//! `marked` says of each vertex whether it is on that cycle, `gone` whether it was taken off. `near` counts its marked
//! neighbours, `away` the gone ones. Each vertex that may be taken off next is on `stack`, with others.
ghost use Rattle.std.specs.Prelude.{◌≡◌, ◌<◌, ◌↔◌, ℕ, length, IsTrue};
ghost use Rattle.rect_orders.specs.Contours.{LooksRemovable, IsStacked};

// The marks of the outer cycle and the counts of all vertices, with the two vertices that stay to the last.
#[derive(Clone, Copy)]
pub(crate) struct Cycle<'a> {
    pub(crate) marked: &'a [bool],
    pub(crate) near: &'a [u16],
    pub(crate) away: &'a [u16],
    pub(crate) bottom: u16,
    pub(crate) left: u16,
    ghost all_near: { length near.now ≡ length marked.now },
    ghost all_away: { length away.now ≡ length marked.now },
}

impl Cycle<'_> {
    // Says whether `v` may be taken off next. It is on the cycle with two neighbours there, at least two neighbours
    // are gone, and it is not one of the two that stay.
    fn is_removable(&self, v: u16) -> bool
        requires { v < length self.now.marked.now }
        ensures { IsTrue result ↔ LooksRemovable self.now.bottom self.now.left self.now.marked.now self.now.near.now self.now.away.now v }
    {
        self.marked[v as usize]
            && v != self.bottom
            && v != self.left
            && self.near[v as usize] == 2
            && self.away[v as usize] >= 2
    }

    // Returns the topmost vertex of `stack` that may be taken off next, of which there is one. Pops those above it.
    pub(crate) fn removable_vertex(&self, stack: &mut Vec<u16>) -> u16
        requires stacked { IsStacked self.now.bottom self.now.left self.now.marked.now self.now.near.now self.now.away.now stack.old.items }
        requires some { (v : ℕ) × LooksRemovable self.now.bottom self.now.left self.now.marked.now self.now.near.now self.now.away.now v }
        ensures removable { LooksRemovable self.now.bottom self.now.left self.now.marked.now self.now.near.now self.now.away.now result }
        ensures vertex { result < length self.now.marked.now }
        ensures stacked { IsStacked self.now.bottom self.now.left self.now.marked.now self.now.near.now self.now.away.now stack.new.items }
    {
        let cycle = *self;
        while stack.len() > 0 {
            let v = stack[stack.len() - 1];
            if cycle.is_removable(v) {
                return v;
            }
            stack.pop();
        }
        cycle.bottom
    }
}
