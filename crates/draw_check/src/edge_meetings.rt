//! What an edge meets: a vertex that lies on it, or another edge that crosses it; and the first edge that is met.
ghost use Rattle.std.specs.Prelude.{◌≡◌, ◌+◌, ◌<◌, ◌≤◌, ◌↔◌, ℕ, length, IsTrue, Some, MatchOption};
ghost use Rattle.half_edges.specs.Map.{IsLive};
ghost use Rattle.vertex_rounds.specs.Least.{IsLeastPair, IsLeastTriple};
ghost use Rattle.vertex_rounds.specs.Rounds.{HoldsAt};
ghost use Rattle.draw_check.specs.Faults.{LiesOnEdge};
ghost use Rattle.draw_check.specs.Verdicts.{NoneOnEdge};
ghost use Rattle.draw_check.specs.Loops.{IsProbeBelow, Meets, IsMet, IsMetFrom};
ghost use Rattle.draw_check.specs.OnEdges.{BoundsAll};

use crate::drawing::PointDrawing;
use crate::vertex_points::place_at;
use half_edges::{DartId, Ends, VertexId};
use pg_plane::{crosses, on_segment};
use vertex_rounds::first_dart_from;

// Something that may meet an edge.
#[derive(Clone, Copy)]
pub(crate) enum Probe {
    // A vertex, which may lie on it.
    Vertex(VertexId),
    // Another edge, which may cross it.
    Edge(VertexId, VertexId),
}

impl PointDrawing<'_> {
    // Says whether `probe` is a third vertex on the edge from `a` to `b`, or an edge that crosses it and shares no end.
    pub(crate) fn meets(&self, probe: Probe, a: VertexId, b: VertexId) -> bool
        requires probe { IsProbeBelow (length self.now.points.now) probe }
        requires a { a.0 < length self.now.points.now }
        requires b { b.0 < length self.now.points.now }
        ensures { IsTrue result ↔ Meets self.now.points.now probe a.0 b.0 }
    {
        let (p, q) = (place_at(self.points, a), place_at(self.points, b));
        match probe {
            Probe::Vertex(v) => v.0 != a.0
                && v.0 != b.0
                && on_segment(place_at(self.points, v), p, q),
            Probe::Edge(s, t) => {
                a.0 != s.0
                    && a.0 != t.0
                    && b.0 != s.0
                    && b.0 != t.0
                    && crosses(place_at(self.points, s), place_at(self.points, t), p, q)
            }
        }
    }

    // Says whether `probe` (a vertex or an edge) meets the edge of dart `d`, and the tail of `d` is its lesser end.
    fn is_met(&self, probe: Probe, d: DartId) -> bool
        requires probe { IsProbeBelow (length self.now.map.now.lists) probe }
        requires live { IsLive self.now.map.now d.0 }
        ensures { IsTrue result ↔ HoldsAt self.now.map.now (IsMet self.now.map.now.lists self.now.points.now probe) d.0 }
    {
        let a = self.map.tail(d);
        let b = self.map.head(d);
        a.0 < b.0 && self.meets(probe, a, b)
    }

    // Returns the first edge that `probe` (a vertex or edge) meets, whose lesser end is at least `from`, or `None`.
    pub(crate) fn first_met(&self, probe: Probe, from: u16) -> Option<Ends>
        requires probe { IsProbeBelow (length self.now.map.now.lists) probe }
        ensures { MatchOption result ((a b : ℕ) → ¬ IsMetFrom self.now.map.now.lists self.now.points.now probe from a b)
            (λ e. IsLeastPair (IsMetFrom self.now.map.now.lists self.now.points.now probe from) e.a.0 e.b.0) }
    {
        match first_dart_from(self.map, from, |d| self.is_met(probe, d)) {
            Some((a, b)) => Some(Ends { a, b }),
            None => None,
        }
    }

    // Returns the least vertex on an edge of which it is no end, with the first such edge, or `None` where there is
    // none. The caller knows that no vertex below `from` is one.
    pub(crate) fn first_on_edge(&self, from: u16) -> Option<(VertexId, Ends)>
        requires none { BoundsAll self.now.map.now.lists self.now.points.now from }
        ensures { MatchOption result (NoneOnEdge self.now.map.now.lists self.now.points.now)
            (λ p. IsLeastTriple (LiesOnEdge self.now.map.now.lists self.now.points.now) p.0.0 p.1.a.0 p.1.b.0) }
    {
        for v in from..self.map.n() {
            if let Some(edge) = self.first_met(Probe::Vertex(VertexId(v)), 0) {
                return Some((VertexId(v), edge));
            }
        }
        None
    }
}
