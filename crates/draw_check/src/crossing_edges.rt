//! The first two edges that cross, by comparing edges with those of the excluded vertices or star by star.
ghost use Rattle.std.specs.Prelude.{◌≡◌, ◌+◌, ◌<◌, ◌↔◌, ℕ, IsTrue, Some, IfSome, MatchOption};
ghost use Rattle.half_edges.specs.Map.{IsLive};
ghost use Rattle.plane_drawings.specs.Drawing.{IsPlaneDrawing};
ghost use Rattle.plane_drawings.specs.SweepCheckLines.{firm_lists};
ghost use Rattle.vertex_rounds.specs.Least.{IsLeastPair, IsLeastFour};
ghost use Rattle.vertex_rounds.specs.Rounds.{HasEdge, HoldsAt};
ghost use Rattle.draw_check.specs.Faults.{EdgesCross};
ghost use Rattle.draw_check.specs.Verdicts.{NoneCross};
ghost use Rattle.draw_check.specs.Loops.{IsCrossed};

use crate::drawing::PointDrawing;
use crate::edge_meetings::Probe;
use half_edges::{DartId, Ends, HalfMap, VertexId};
use vertex_rounds::first_dart;

// Says whether the vertices `loose` have at most 256 edges, so that it is quick to compare each edge with all of these.
fn have_few_edges(map: &HalfMap, loose: &[u16]) -> bool {
    let mut count: u16 = 0;
    for i in 0..loose.len() {
        let v = VertexId(loose[i]);
        if v.0 < map.n() {
            count = count.saturating_add(map.degree(v));
        }
    }
    count <= 256
}

impl PointDrawing<'_> {
    // Returns the first later edge that crosses the edge from `a` to `b`, or `None`; `a` is the lesser end. Edges come
    // in the order of their lesser ends, then of their greater ones.
    fn crossing_of(&self, a: VertexId, b: VertexId) -> Option<Ends>
        requires edge { HasEdge self.now.map.now.lists a.0 b.0 }
        ensures { MatchOption result ((c d : ℕ) → ¬ EdgesCross self.now.map.now.lists self.now.points.now a.0 b.0 c d)
            (λ e. IsLeastPair (EdgesCross self.now.map.now.lists self.now.points.now a.0 b.0) e.a.0 e.b.0) }
    {
        self.first_met(Probe::Edge(a, b), a.0 + 1)
    }

    // Says whether the tail of dart `d` is the lesser end of its edge and a later edge crosses this edge. The drawing
    // must be plane without the edges of the vertices `loose`.
    fn is_dart_crossed(&self, loose: &[u16], d: DartId) -> bool
        requires plane { IsPlaneDrawing (firm_lists loose.now self.now.map.now.lists) self.now.points.now }
        requires live { IsLive self.now.map.now d.0 }
        ensures { IsTrue result ↔ HoldsAt self.now.map.now (IsCrossed self.now.map.now.lists self.now.points.now) d.0 }
    {
        let a = self.map.tail(d);
        let b = self.map.head(d);
        if b.0 <= a.0 {
            return false;
        }
        if !self.may_be_crossed(loose, a, b) {
            return false;
        }
        match self.crossing_of(a, b) {
            Some(_) => true,
            None => false,
        }
    }

    // Returns the first edge that a later one crosses, or `None`. Where `loose` is given, the drawing must be plane
    // without the edges of these vertices. Where it is not, or they have many edges, the search goes vertex by vertex.
    fn first_crossed_edge(&self, loose: Option<&[u16]>) -> Option<Ends>
        requires plane { IfSome loose (λ l. IsPlaneDrawing (firm_lists l.now self.now.map.now.lists) self.now.points.now) }
        ensures { MatchOption result ((a b : ℕ) → ¬ IsCrossed self.now.map.now.lists self.now.points.now a b)
            (λ e. IsLeastPair (IsCrossed self.now.map.now.lists self.now.points.now) e.a.0 e.b.0) }
    {
        match loose {
            Some(loose) if have_few_edges(self.map, loose) => {
                match first_dart(self.map, |d| self.is_dart_crossed(loose, d)) {
                    Some((a, b)) => Some(Ends { a, b }),
                    None => None,
                }
            }
            _ => self.first_crossed(),
        }
    }

    // Returns the first two edges that cross and have no end in common, or `None`. Where `loose` is given, the drawing
    // must be plane without the edges of these vertices.
    pub(crate) fn first_crossing(&self, loose: Option<&[u16]>) -> Option<(Ends, Ends)>
        requires plane { IfSome loose (λ l. IsPlaneDrawing (firm_lists l.now self.now.map.now.lists) self.now.points.now) }
        ensures { MatchOption result (NoneCross self.now.map.now.lists self.now.points.now)
            (λ p. IsLeastFour (EdgesCross self.now.map.now.lists self.now.points.now) p.0.a.0 p.0.b.0 p.1.a.0 p.1.b.0) }
    {
        match self.first_crossed_edge(loose) {
            Some(first) => match self.crossing_of(first.a, first.b) {
                Some(later) => Some((first, later)),
                None => None,
            },
            None => None,
        }
    }
}
