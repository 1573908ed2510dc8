//! The least two rectangles that meet or whose contact is wrong, among pairs with a marked vertex.
ghost use Rattle.std.specs.Prelude.{◌≡◌, ◌<◌, ◌↔◌, ℕ, length, MatchOption};
ghost use Rattle.map_theory.specs.Maps.{HasDart};
ghost use Rattle.vertex_rounds.specs.Least.{IsLeast, IsLeastPair};
ghost use Rattle.drawings.specs.Duals.{ShareSide};
ghost use Rattle.rect_check.specs.Faults.{RectsMeet, HasWrongContact};
ghost use Rattle.rect_check.specs.Loops.{AllJoined};
ghost use Rattle.rect_check.specs.Meets.{MeetsAreMarked};
ghost use Rattle.rect_check.specs.Verdicts.{NoneMeet, HasContacts};

use crate::rects::Rects;
use crate::shared_sides::{are_adjacent, do_meet, share_side};
use half_edges::VertexId;

impl Rects<'_> {
    // Returns the least two rectangles whose interiors meet, or `None`. It requires a mark in `marks` for each vertex
    // whose rectangle meets that of a greater one, and tries only pairs of these.
    pub(crate) fn first_marked_meet(&self, marks: &[bool]) -> Option<(VertexId, VertexId)>
        requires marks { length marks.now ≡ length self.now.map.now.lists }
        requires marked { MeetsAreMarked self.now.map.now.lists self.now.fig.now marks.now }
        ensures { MatchOption result (NoneMeet self.now.map.now.lists self.now.fig.now)
            (λ p. IsLeastPair (RectsMeet self.now.map.now.lists self.now.fig.now) p.0.0 p.1.0) }
    {
        for u in 0..self.map.n() {
            if !marks[u as usize] {
                continue;
            }
            for v in u + 1..self.map.n() {
                if do_meet(self.fig, VertexId(u), VertexId(v)) {
                    return Some((VertexId(u), VertexId(v)));
                }
            }
        }
        None
    }

    // Returns the least vertex after `u` whose contact with `u` is wrong, or `None`: they share a side or are adjacent,
    // but not both. `marks` has to mark both of any two that share a side and are not adjacent.
    fn first_wrong_at(&self, marks: &[bool], u: VertexId) -> Option<VertexId>
        requires vertex { u.0 < length self.now.map.now.lists }
        requires marks { length marks.now ≡ length self.now.map.now.lists }
        requires joined { AllJoined self.now.map.now.lists marks.now self.now.fig.now }
        ensures { MatchOption result ((v : ℕ) → u.0 < v → v < length self.now.map.now.lists → ShareSide self.now.fig.now u.0 v ↔ HasDart self.now.map.now.lists u.0 v)
            (λ v. IsLeast (HasWrongContact self.now.map.now.lists self.now.fig.now u.0) v.0) }
    {
        if !marks[u.0 as usize] {
            return self.first_missed_with(u);
        }
        for v in u.0 + 1..self.map.n() {
            let v = VertexId(v);
            if share_side(self.fig, u, v) != are_adjacent(self.map, u, v) {
                return Some(v);
            }
        }
        None
    }

    // Returns the least two vertices that share a side or are adjacent, but not both, or `None`. `marks` has to mark
    // both of any two that share a side and are not adjacent.
    pub(crate) fn first_wrong(&self, marks: &[bool]) -> Option<(VertexId, VertexId)>
        requires marks { length marks.now ≡ length self.now.map.now.lists }
        requires joined { AllJoined self.now.map.now.lists marks.now self.now.fig.now }
        ensures { MatchOption result (HasContacts self.now.map.now.lists self.now.fig.now)
            (λ p. IsLeastPair (HasWrongContact self.now.map.now.lists self.now.fig.now) p.0.0 p.1.0) }
    {
        let rects = *self;
        for u in 0..rects.map.n() {
            if let Some(v) = rects.first_wrong_at(marks, VertexId(u)) {
                return Some((VertexId(u), v));
            }
        }
        None
    }
}
