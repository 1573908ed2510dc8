//! The public call `rect_order`: vertices taken off the outer cycle one by one, from the last to the first.
ghost use Rattle.std.specs.Prelude.{◌≡◌, ◌<◌, ℕ, false, true, [], ◌∷◌, length, reverse, IfOk};
ghost use Rattle.map_lists.specs.Lists.{Lists};
ghost use Rattle.map_theory.specs.Maps.{IsSimpleMap};
ghost use Rattle.canon_order.specs.Marks.{is_set, IsTaken};
ghost use Rattle.canon_order.specs.Orders.{vertices_of};
ghost use Rattle.rect_orders.specs.Orders.{IsRectOrder};
ghost use Rattle.rect_orders.specs.Contours.{IsFresh, IsPrepared, IsClosedOf, IsClosedAt, IsOrderAt};

use crate::rect_order::outer_cycle::Cycle;
use crate::rect_order::outer_frame::Frame;
use canon_order::cycle_marks::{AtVertex, Three, mark};
use canon_order::{Order, push_three, reversed_order};
use half_edges::Rotations;
use std::alloc::{AllocError, Global};

// The lists of a map with the edge between top and bottom added, and the vertices of its outer face.
#[derive(Clone, Copy)]
struct Closed<'a> {
    lists: &'a Rotations,
    frame: Frame,
    ghost few: { length lists.now < 4096 },
    ghost simple: { ∥ IsSimpleMap lists.now ∥₁ },
}

impl Closed<'_> {
    // Does nothing. By its contract a proof learns what holds of the map.
    fn facts(&self)
        ensures { IsSimpleMap self.now.lists.now }
    {}

    // Takes the vertex `v` off the outer cycle, in tables with an entry for each vertex. Marks it in `gone`, and adds
    // one in `away` for each neighbour. In `marked` clears its mark, and marks its neighbours that are not gone. `near`
    // counts marked neighbours; marked vertices that come to have two go on `stack`. `fresh` is scratch space. Fails only
    // when out of memory.
    fn take_off(
        &self,
        marked: &mut [bool],
        near: &mut [u16],
        gone: &mut [bool],
        away: &mut [u16],
        stack: &mut Vec<u16>,
        fresh: &mut Vec<u16>,
        v: u16,
    ) -> Result<(), AllocError>
        requires prepared { IsPrepared self.now.lists.now self.now.frame.bottom.0 self.now.frame.left.0 marked.old near.old gone.old away.old stack.old.items }
        requires marked { is_set marked.old v ≡ true }
        requires left { is_set gone.old v ≡ false }
        ensures prepared { IfOk result (λ _. IsPrepared self.now.lists.now self.now.frame.bottom.0 self.now.frame.left.0 marked.new near.new gone.new away.new stack.new.items) }
        ensures taken { IfOk result (λ _. IsTaken self.now.lists.now v marked.old gone.old marked.new gone.new) }
    {
        self.facts();
        mark(gone, away, self.lists, v);
        let off = AtVertex {
            lists: self.lists,
            gone,
            v,
        };
        off.leave_cycle(marked, near, stack, fresh)?;
        Ok(())
    }

    // Takes all vertices but three off by `take_off`, from the last of the order to the first. `taken` has the top and
    // the right one before; appends to it the others in that order, and then the three. Before, `marked` and `gone`
    // have no marks, `near` and `away` have zeros, and `stack` is empty; `fresh` is scratch space. It fails only when
    // out of memory.
    fn take_all(
        &self,
        marked: &mut [bool],
        near: &mut [u16],
        gone: &mut [bool],
        away: &mut [u16],
        stack: &mut Vec<u16>,
        fresh: &mut Vec<u16>,
        taken: &mut Vec<u16>,
    ) -> Result<(), AllocError>
        requires class { (map : Lists) × IsClosedAt self.now.lists.now map self.now.frame }
        requires fresh { IsFresh self.now.lists.now marked.old near.old gone.old away.old stack.old.items }
        requires begun { taken.old.items ≡ self.now.frame.top.0 ∷ self.now.frame.right.0 ∷ [] }
        ensures { IfOk result (λ _. IsOrderAt self.now.lists.now self.now.frame (reverse taken.new.items)) }
    {
        self.facts();
        let closed = *self;
        let lists = closed.lists;
        let frame = closed.frame;
        let three = Three {
            lists,
            first: frame.left.0,
            second: frame.top.0,
            third: frame.bottom.0,
        };
        three.mark_all(marked, near);
        closed.take_off(marked, near, gone, away, stack, fresh, frame.top.0)?;
        closed.take_off(marked, near, gone, away, stack, fresh, frame.right.0)?;
        for _ in 5..lists.len() {
            let cycle = Cycle {
                marked,
                near,
                away,
                bottom: frame.bottom.0,
                left: frame.left.0,
            };
            let v = cycle.removable_vertex(stack);
            closed.take_off(marked, near, gone, away, stack, fresh, v)?;
            taken.push(v)?;
        }
        push_three(taken, frame.inner.0, frame.bottom.0, frame.left.0)
    }

    // Returns all vertices from the last of a rectangular order to the first. It fails only when out of memory.
    fn taken_off(&self, alloc: Global) -> Result<Vec<u16>, AllocError>
        requires class { (map : Lists) × IsClosedAt self.now.lists.now map self.now.frame }
        ensures { IfOk result (λ taken. IsOrderAt self.now.lists.now self.now.frame (reverse taken.items)) }
    {
        let n = self.lists.len();
        let mut marked = vec![in alloc; false; n]?;
        let mut near = vec![in alloc; 0; n]?;
        let mut gone = vec![in alloc; false; n]?;
        let mut away = vec![in alloc; 0; n]?;
        let mut stack = Vec::new(alloc);
        let mut fresh = Vec::new(alloc);
        let mut taken = Vec::new(alloc);
        taken.push(self.frame.top.0)?;
        taken.push(self.frame.right.0)?;
        self.take_all(
            &mut marked,
            &mut near,
            &mut gone,
            &mut away,
            &mut stack,
            &mut fresh,
            &mut taken,
        )?;
        Ok(taken)
    }
}

/// Returns a rectangular order of the map with the outer face `frame`, where `more` are its lists with the edge between
/// top and bottom added. The left vertex is the first, the bottom the second, the right one the last but one, and the
/// top the last. Each other vertex has at least two later neighbours. `rank` has each vertex's index in `at`.
///
/// It fails only when out of memory. The lists stay as they are. The time is linear in the vertices, which are taken
/// off from the last one on. Each goes onto the outer cycle and off it once, and its neighbours count how many of
/// theirs are there and how many are gone.
///
/// Source: Kant, He, Regular edge labeling of 4-connected plane graphs, 1997.
pub fn rect_order(alloc: Global, more: &Rotations, frame: Frame) -> Result<Order, AllocError>
    requires class { (map : Lists) × IsClosedOf more.now map frame.left.0 frame.top.0 frame.right.0 frame.bottom.0 frame.inner.0 }
    ensures order { IfOk result (λ order. (map : Lists) → IsClosedOf more.now map frame.left.0 frame.top.0 frame.right.0 frame.bottom.0 frame.inner.0
        → IsRectOrder map frame.left.0 frame.top.0 frame.right.0 frame.bottom.0 (vertices_of order)) }
{
    more.facts();
    let closed = Closed { lists: more, frame };
    let taken = closed.taken_off(alloc)?;
    let order = reversed_order(alloc, &taken)?;
    Ok(order)
}
