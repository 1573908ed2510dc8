//! Which edges may be crossed, where a drawing is plane without the edges of a few excluded (loose) vertices.
ghost use Rattle.std.specs.Prelude.{◌≡◌, ◌↔◌, ℕ, length, false, IsTrue};
ghost use Rattle.half_edges.specs.Map.{IsLive};
ghost use Rattle.plane_drawings.specs.Drawing.{IsPlaneDrawing};
ghost use Rattle.plane_drawings.specs.SweepCheckLines.{is_among, firm_lists};
ghost use Rattle.vertex_rounds.specs.Rounds.{HasEdge, HoldsAt};
ghost use Rattle.draw_check.specs.Faults.{EdgesCross};
ghost use Rattle.draw_check.specs.Loops.{IsProbeBelow, Touches};

use crate::drawing::PointDrawing;
use crate::edge_meetings::Probe;
use half_edges::{DartId, VertexId};
use plane_drawings::sweep_check::is_among;
use vertex_rounds::least_head;

impl PointDrawing<'_> {
    // Says whether `probe` (a vertex or an edge) meets the edge of dart `d`, whichever end is the tail.
    fn touches(&self, probe: Probe, d: DartId) -> bool
        requires probe { IsProbeBelow (length self.now.map.now.lists) probe }
        requires live { IsLive self.now.map.now d.0 }
        ensures { IsTrue result ↔ HoldsAt self.now.map.now (Touches self.now.points.now probe) d.0 }
    {
        let a = self.map.tail(d);
        let b = self.map.head(d);
        self.meets(probe, a, b)
    }

    // Says whether a later edge may cross the edge from `a` to `b`: this ends in `loose`, or meets an edge of a vertex
    // of `loose`. Only false is sure. The drawing must be plane without the edges of the vertices `loose`.
    pub(crate) fn may_be_crossed(&self, loose: &[u16], a: VertexId, b: VertexId) -> bool
        requires plane { IsPlaneDrawing (firm_lists loose.now self.now.map.now.lists) self.now.points.now }
        requires edge { HasEdge self.now.map.now.lists a.0 b.0 }
        ensures { result ≡ false → (c d : ℕ) → ¬ EdgesCross self.now.map.now.lists self.now.points.now a.0 b.0 c d }
    {
        if is_among(loose, a.0) {
            return true;
        }
        if is_among(loose, b.0) {
            return true;
        }
        let edge = Probe::Edge(a, b);
        for i in 0..loose.len() {
            let v = VertexId(loose[i]);
            if v.0 >= self.map.n() {
                continue;
            }
            if let Some(_) = least_head(self.map, v, |d| self.touches(edge, d)) {
                return true;
            }
        }
        false
    }
}
