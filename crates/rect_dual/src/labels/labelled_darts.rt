//! The label of each dart, by the ranks of its ends in a rectangular order.
ghost use Rattle.std.specs.Prelude.{◌≡◌, ◌<◌, ◌↔◌, ℕ, Some, length, All, IsTrue, IfOk};
ghost use Rattle.half_edges.specs.Map.{dart_at, id_bound};
ghost use Rattle.rect_orders.specs.Labellings.{IsSide, IsFrameEdge};
ghost use Rattle.rect_dual.specs.EdgeLabelsTables.{is_run, end_at, end_by};
ghost use Rattle.rect_dual.specs.Labellings.{label_of, IsLabelOf, AreLabelsOf};

use crate::labels::horizontal_edges::RunTables;
use crate::labels::label_types::Label;
use half_edges::{Counts, DartId, HalfMap, VertexId};
use rect_orders::rect_order::Frame;
use std::alloc::{AllocError, Global};

// Says whether (`u`, `v`) is (`a`, `b`).
fn are(u: VertexId, v: VertexId, a: VertexId, b: VertexId) -> bool
    ensures { IsTrue result ↔ ((u.0 ≡ a.0) × (v.0 ≡ b.0)) }
{
    u.0 == a.0 && v.0 == b.0
}

// Says whether `v` comes directly after `u` along the outer face, whose vertices are those of `frame`.
fn is_side(frame: &Frame, u: VertexId, v: VertexId) -> bool
    ensures { IsTrue result ↔ IsSide frame.now.left.0 frame.now.top.0 frame.now.right.0 frame.now.bottom.0 u.0 v.0 }
{
    are(u, v, frame.left, frame.top)
        || (are(u, v, frame.top, frame.right)
            || (are(u, v, frame.right, frame.bottom) || are(u, v, frame.bottom, frame.left)))
}

// Says whether `u` and `v` are the ends of an edge of the outer face, whose vertices are those of `frame`.
fn is_frame_edge(frame: &Frame, u: VertexId, v: VertexId) -> bool
    ensures { IsTrue result ↔ IsFrameEdge frame.now.left.0 frame.now.top.0 frame.now.right.0 frame.now.bottom.0 u.0 v.0 }
{
    is_side(frame, u, v) || is_side(frame, v, u)
}

impl RunTables {
    // Says whether the edge from rank `i` to the later rank `j` is horizontal, which is called a run.
    fn is_run_to(&self, i: u32, j: u32) -> bool
        requires first { j < length self.now.first.items }
        requires left { i < length self.now.left.items }
        ensures { result ≡ is_run self.now.first.items self.now.left.items i j }
    {
        self.first[j as usize] == i || self.left[i as usize] == j
    }

    // Returns the label of the dart from rank `i` to rank `j`, whose edge is not on the outer face.
    fn inner_label(&self, i: u32, j: u32) -> Label
        requires i { i < length self.now.first.items }
        requires j { j < length self.now.first.items }
        ensures { result ≡ label_of (end_at self.now.first.items self.now.left.items i j) }
    {
        if i < j {
            if self.is_run_to(i, j) {
                Label::RunOut
            } else {
                Label::RiseOut
            }
        } else {
            if self.is_run_to(j, i) {
                Label::RunIn
            } else {
                Label::RiseIn
            }
        }
    }
}

// A map with its outer vertices, the rank of each vertex, and the tables that tell horizontal edges from vertical ones.
#[derive(Clone, Copy)]
pub(crate) struct Ranked<'a> {
    pub(crate) map: &'a HalfMap,
    pub(crate) frame: &'a Frame,
    pub(crate) ranks: &'a Counts,
    pub(crate) tables: &'a RunTables,
    ghost count: { length ranks.now ≡ length map.now.lists },
    ghost within: { All (λ k. k < length tables.now.first.items) ranks.now },
}

impl Ranked<'_> {
    // Returns the label of the dart `d`: how its edge stands at its tail, or `Frame` on the outer face. For an id of no
    // dart it returns `Frame` too.
    fn dart_label(&self, d: DartId) -> Label
        ensures { (u v : ℕ) → dart_at self.now.map.now d.0 ≡ Some (u, v) → IsLabelOf self.now.frame.now.left.0 self.now.frame.now.top.0 self.now.frame.now.right.0 self.now.frame.now.bottom.0
            (end_by self.now.tables.now.first.items self.now.tables.now.left.items self.now.ranks.now) u v result }
    {
        if !self.map.is_live(d) {
            return Label::Frame;
        }
        let u = self.map.tail(d);
        let v = self.map.head(d);
        if is_frame_edge(self.frame, u, v) {
            return Label::Frame;
        }
        self.tables
            .inner_label(self.ranks.get(u.0 as usize), self.ranks.get(v.0 as usize))
    }

    // Returns a table with the label of each dart, at the number of its id. At other ids it has `Frame`. It fails only
    // when out of memory.
    pub(crate) fn dart_labels(&self, alloc: Global) -> Result<Vec<Label>, AllocError>
        ensures count { IfOk result (λ labels. length labels.items ≡ id_bound self.now.map.now) }
        ensures labels { IfOk result (λ labels. AreLabelsOf self.now.map.now self.now.frame.now.left.0 self.now.frame.now.top.0 self.now.frame.now.right.0 self.now.frame.now.bottom.0
            (end_by self.now.tables.now.first.items self.now.tables.now.left.items self.now.ranks.now) (id_bound self.now.map.now) labels.items) }
    {
        let ranked = *self;
        let ids = 2 * (ranked.map.m() + ranked.map.spare());
        let mut labels = Vec::new(alloc);
        for d in 0..ids {
            labels.push(ranked.dart_label(DartId(d)))?;
        }
        Ok(labels)
    }
}
