//! Edges of the map whose rectangles do not share a side.
ghost use Rattle.std.specs.Prelude.{◌<◌, ◌↔◌, ℕ, IsTrue, MatchOption, length};
ghost use Rattle.map_theory.specs.Maps.{HasDart};
ghost use Rattle.half_edges.specs.Map.{IsLive};
ghost use Rattle.vertex_rounds.specs.Least.{IsLeast};
ghost use Rattle.vertex_rounds.specs.Rounds.{HoldsAt};
ghost use Rattle.drawings.specs.Duals.{ShareSide};
ghost use Rattle.rect_check.specs.Faults.{HasWrongContact};
ghost use Rattle.rect_check.specs.Loops.{IsMissed};

use crate::rects::Rects;
use crate::shared_sides::share_side;
use half_edges::{DartId, VertexId};
use vertex_rounds::least_head;

impl Rects<'_> {
    // Says whether the rectangles of the ends of dart `d` share no side, and its tail is the lesser end.
    fn is_missed(&self, d: DartId) -> bool
        requires live { IsLive self.now.map.now d.0 }
        ensures { IsTrue result ↔ HoldsAt self.now.map.now (IsMissed self.now.map.now.lists self.now.fig.now) d.0 }
    {
        let u = self.map.tail(d);
        let v = self.map.head(d);
        u.0 < v.0 && !share_side(self.fig, u, v)
    }

    // Returns the least vertex after `u` that is adjacent to `u` without sharing a side, or `None`. It requires that
    // all that share a side with `u` are adjacent to it.
    pub(crate) fn first_missed_with(&self, u: VertexId) -> Option<VertexId>
        requires vertex { u.0 < length self.now.map.now.lists }
        requires joined { (v : ℕ) → u.0 < v → v < length self.now.map.now.lists → ShareSide self.now.fig.now u.0 v → HasDart self.now.map.now.lists u.0 v }
        ensures { MatchOption result ((v : ℕ) → u.0 < v → v < length self.now.map.now.lists → ShareSide self.now.fig.now u.0 v ↔ HasDart self.now.map.now.lists u.0 v)
            (λ v. IsLeast (HasWrongContact self.now.map.now.lists self.now.fig.now u.0) v.0) }
    {
        least_head(self.map, u, |d| self.is_missed(d))
    }
}
