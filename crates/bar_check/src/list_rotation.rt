//! Rotations: whether each vertex's edges stand in the order of its list, upwards by rising column and then downwards.
ghost use Rattle.std.specs.Prelude.{◌≡◌, ◌<◌, ◌↔◌, ◌||◌, ℕ, IsTrue, Some, MatchOption};
ghost use Rattle.map_lists.specs.Lists.{Lists};
ghost use Rattle.half_edges.specs.Map.{IsLive};
ghost use Rattle.vertex_rounds.specs.Least.{IsLeast};
ghost use Rattle.vertex_rounds.specs.Rounds.{HoldsAt};
ghost use Rattle.bar_check.specs.Loops.{Breaks};
ghost use Rattle.drawings.specs.Bars.{column_between as the_column, IsAbove, IsEarlier};
ghost use Rattle.bar_check.specs.Faults.{IsTurned};
ghost use Rattle.bar_check.specs.Verdicts.{KeepsTurns};

use crate::drawing::BarDrawing;
use crate::heights_and_bars::entry_or_zero;
use half_edges::{DartId, VertexId};
use pg_plane::BarFigure;
use vertex_rounds::turns_once;

// Says whether `u` stands higher than `v`.
fn is_above(fig: &BarFigure, v: VertexId, u: VertexId) -> bool
    ensures { IsTrue result ↔ IsAbove fig.now v.0 u.0 }
{
    entry_or_zero(&fig.y, v.0 as usize) < entry_or_zero(&fig.y, u.0 as usize)
}

// A vertex `v`, and two of its neighbours, `u` and `w`.
#[derive(Clone, Copy)]
struct TwoNeighbours {
    v: VertexId,
    u: VertexId,
    w: VertexId,
}

// Says whether, of the edges of `v`, that to `u` comes before that to `w`. They are in the columns `x` and `z`. Upward
// edges come first, by rising column, and then downward ones by falling column.
fn is_earlier(fig: &BarFigure, corner: TwoNeighbours, x: i32, z: i32) -> bool
    ensures { (lists : Lists) → x ≡ the_column lists fig.now corner.v.0 corner.u.0 → z ≡ the_column lists fig.now corner.v.0 corner.w.0
        → IsTrue result ↔ IsEarlier lists fig.now corner.v.0 corner.u.0 corner.w.0 }
{
    let TwoNeighbours { v, u, w } = corner;
    if x < z {
        is_above(fig, v, u)
    } else {
        !is_above(fig, v, w) && (z < x || is_above(fig, v, u))
    }
}

impl BarDrawing<'_> {
    // Says whether the edge of dart `d` does not come before that of the next entry of the list of its tail.
    fn is_break(&self, d: DartId) -> bool
        requires live { IsLive self.now.map.now d.0 }
        ensures { IsTrue result ↔ HoldsAt self.now.map.now (Breaks self.now.map.now.lists self.now.fig.now) d.0 }
    {
        let next = self.map.next(d);
        let x = self.column_at(d);
        let z = self.column_at(next);
        let corner = TwoNeighbours {
            v: self.map.tail(d),
            u: self.map.head(d),
            w: self.map.head(next),
        };
        !is_earlier(self.fig, corner, x, z)
    }

    // Returns the least vertex with at least two entries whose list does not go once round in edge order, or `None`.
    pub(crate) fn first_turned(&self) -> Option<VertexId>
        ensures { MatchOption result (KeepsTurns self.now.map.now.lists self.now.fig.now)
            (λ v. IsLeast (IsTurned self.now.map.now.lists self.now.fig.now) v.0) }
    {
        let drawing = *self;
        for v in 0..drawing.map.n() {
            if !turns_once(drawing.map, VertexId(v), |d| drawing.is_break(d)) {
                return Some(VertexId(v));
            }
        }
        None
    }
}
