//! Marks on the rectangles whose interiors meet others, by a pass from the left and one from the right. The first keeps
//! for each row how far the rectangles so far reach along it, and marks each that begins before that. The pass back
//! marks the others of such pairs.
ghost use Rattle.std.specs.Prelude.{◌≡◌, ◌+◌, ◌<◌, ◌≤◌, ◌||◌, ◌≤ℤ◌, ◌<ℤ◌, ◌-ℤ◌, ℕ, length, slice_index, pos, IsTrue, MatchOption, All};
ghost use Rattle.vertex_rounds.specs.Least.{IsLeastPair};
ghost use Rattle.rect_check.specs.Faults.{RectsMeet};
ghost use Rattle.rect_check.specs.Verdicts.{NoneMeet};
ghost use Rattle.rect_check.specs.Loops.{IsMarked, AreKept, HasRow};
ghost use Rattle.rect_check.specs.Meets.{near_at, far_at, DoReach, LaterAreMarked, MeetsAreMarked};

use crate::rects::{Rects, number};
use crate::sweep::{fill_rows, natural};
use crate::sweep_order::{fill_vertices, sort_vertices};
use half_edges::VertexId;

// Returns the distance of the coordinate `z`, from 0 to `n`, from 0. Only the contract needs `n`.
fn from_front(n: u16, z: i32) -> u16
    requires low { pos 0 ≤ℤ z }
    requires high { z ≤ℤ pos n }
    ensures { pos result ≡ z }
{
    z as u16
}

// Returns the distance of the coordinate `z`, from 0 to `n`, from `n`: a pass from the right measures from there.
fn from_behind(n: u16, z: i32) -> u16
    requires low { pos 0 ≤ℤ z }
    requires high { z ≤ℤ pos n }
    ensures { pos result ≡ pos n -ℤ z }
{
    (i32::from(n) - z) as u16
}

// Returns the greater of `u` and `v`.
fn greater(u: u16, v: u16) -> u16
    ensures first { u ≤ result }
    ensures second { v ≤ result }
{
    u.max(v)
}

// A pass over the rectangles of a figure: from the left, or back from the right.
#[derive(Clone, Copy)]
struct Pass<'a> {
    rects: Rects<'a>,
    back: bool,
}

impl Pass<'_> {
    // Returns the distance at which the rectangle of `v` begins for this pass: of its left side from 0, or on the way
    // back of its right side from n.
    fn near(&self, v: VertexId) -> u16
        requires vertex { v.0 < length self.now.rects.map.now.lists }
        ensures { pos result ≡ near_at self.now.back (length self.now.rects.map.now.lists) self.now.rects.fig.now v.0 }
    {
        if self.back {
            from_behind(self.rects.map.n(), number(&self.rects.fig.x2, v))
        } else {
            from_front(self.rects.map.n(), number(&self.rects.fig.x1, v))
        }
    }

    // Returns the distance at which the rectangle of `v` ends for this pass: of its right side from 0, or on the way
    // back of its left side from n.
    fn far(&self, v: VertexId) -> u16
        requires vertex { v.0 < length self.now.rects.map.now.lists }
        ensures { pos result ≡ far_at self.now.back (length self.now.rects.map.now.lists) self.now.rects.fig.now v.0 }
    {
        if self.back {
            from_behind(self.rects.map.n(), number(&self.rects.fig.x1, v))
        } else {
            from_front(self.rects.map.n(), number(&self.rects.fig.x2, v))
        }
    }

    // Marks `v` in `marks`, if its rectangle begins before the end of an earlier one in a row (a unit of height) that
    // both have. `table` has for each row how far the earlier ones reach, and is raised in the rows of `v` to where its
    // rectangle ends.
    fn mark_next(&self, table: &mut [u16], marks: &mut [bool], v: VertexId)
        requires vertex { v.0 < length self.now.rects.map.now.lists }
        requires table { length table.old ≡ length self.now.rects.map.now.lists }
        requires marks { length marks.old ≡ length self.now.rects.map.now.lists }
        ensures table { length table.new ≡ length table.old }
        ensures marks { length marks.new ≡ length marks.old }
        ensures kept { AreKept marks.old marks.new }
        ensures found { (y : ℕ) → HasRow self.now.rects.fig.now.y1 self.now.rects.fig.now.y2 v.0 y → near_at self.now.back (length self.now.rects.map.now.lists) self.now.rects.fig.now v.0 <ℤ pos (slice_index table.old y) → IsMarked marks.new v.0 }
        ensures inside { (y : ℕ) → HasRow self.now.rects.fig.now.y1 self.now.rects.fig.now.y2 v.0 y → far_at self.now.back (length self.now.rects.map.now.lists) self.now.rects.fig.now v.0 ≤ℤ pos (slice_index table.new y) }
        ensures grown { (y : ℕ) → slice_index table.old y ≤ slice_index table.new y }
    {
        let near = self.near(v);
        let far = self.far(v);
        let low = natural(number(&self.rects.fig.y1, v));
        let high = natural(number(&self.rects.fig.y2, v));
        let mut found = false;
        for y in low..high {
            found = found || near < table[y];
            table[y] = greater(table[y], far);
        }
        if found {
            marks[v.0 as usize] = true;
        }
    }

    // Marks each vertex of `order` in `marks` whose rectangle meets one before it. `table` has for each row how far the
    // earlier ones reach, and is raised in passing.
    fn mark_later(&self, order: &[u16], table: &mut [u16], marks: &mut [bool])
        requires vertices { All (λ v. v < length self.now.rects.map.now.lists) order.now }
        requires table { length table.old ≡ length self.now.rects.map.now.lists }
        requires marks { length marks.old ≡ length self.now.rects.map.now.lists }
        ensures table { length table.new ≡ length self.now.rects.map.now.lists }
        ensures marks { length marks.new ≡ length self.now.rects.map.now.lists }
        ensures kept { AreKept marks.old marks.new }
        ensures later { LaterAreMarked self.now.rects.fig.now order.now (length order.now) marks.new }
    {
        let pass = *self;
        for i in 0..order.len() {
            pass.mark_next(table, marks, VertexId(order[i]));
        }
    }
}

impl Rects<'_> {
    // Returns the least two rectangles whose interiors meet, or `None`. `order`, `table` and `marks` are scratch space,
    // an entry for each vertex.
    fn first_meet_in(
        &self,
        order: &mut [u16],
        table: &mut [u16],
        marks: &mut [bool],
    ) -> Option<(VertexId, VertexId)>
        requires order { length order.old ≡ length self.now.map.now.lists }
        requires table { length table.old ≡ length self.now.map.now.lists }
        requires marks { length marks.old ≡ length self.now.map.now.lists }
        ensures { MatchOption result (NoneMeet self.now.map.now.lists self.now.fig.now)
            (λ p. IsLeastPair (RectsMeet self.now.map.now.lists self.now.fig.now) p.0.0 p.1.0) }
    {
        fill_vertices(order);
        sort_vertices(&self.fig.x1, order);
        let rects = *self;
        fill_rows(table, 0, table.len(), 0);
        let forth = Pass { rects, back: false };
        forth.mark_later(order, table, marks);
        order.reverse();
        fill_rows(table, 0, table.len(), 0);
        let back = Pass { rects, back: true };
        back.mark_later(order, table, marks);
        self.first_marked_meet(marks)
    }

    // Returns the least two rectangles whose interiors meet, or `None`. Arrays of `MOST` entries, for the `n` vertices
    // of the map, are on the stack.
    fn first_meet_of<const MOST: usize>(&self, n: usize) -> Option<(VertexId, VertexId)>
        requires n { n ≡ length self.now.map.now.lists }
        requires most { n ≤ MOST }
        requires room { MOST < 4096 }
        ensures { MatchOption result (NoneMeet self.now.map.now.lists self.now.fig.now)
            (λ p. IsLeastPair (RectsMeet self.now.map.now.lists self.now.fig.now) p.0.0 p.1.0) }
    {
        let mut order = [0; MOST];
        let mut table = [0; MOST];
        let mut marks = [false; MOST];
        self.first_meet_in(&mut order[..n], &mut table[..n], &mut marks[..n])
    }

    // Returns the least two rectangles whose interiors meet, or `None`, with as much room as the map needs.
    pub(crate) fn first_meet(&self) -> Option<(VertexId, VertexId)>
        ensures { MatchOption result (NoneMeet self.now.map.now.lists self.now.fig.now)
            (λ p. IsLeastPair (RectsMeet self.now.map.now.lists self.now.fig.now) p.0.0 p.1.0) }
    {
        let n = self.map.n() as usize;
        if n <= 255 {
            self.first_meet_of::<255>(n)
        } else {
            self.first_meet_of::<4095>(n)
        }
    }
}
