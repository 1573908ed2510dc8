//! Bounding boxes of blocks of 16 stars each: what the edges of 16 consecutive vertices reach.
ghost use Rattle.std.specs.Prelude.{◌≡◌, ◌+◌, ◌*◌, ◌<◌, ◌≤◌, ℕ, length};
ghost use Rattle.draw_check.specs.Spans.{IsBoxInRange};
ghost use Rattle.draw_check.specs.Stars.{Reaches, AreBlocks};

use crate::bounding_boxes::{BoundingBox, NO_SPAN, joined, widened};
use crate::drawing::PointDrawing;
use crate::sorted_neighbours::batch_begin;
use half_edges::VertexId;

impl PointDrawing<'_> {
    // Returns a box of the vertices from number `begin` on and before `end`, and of their greater neighbours. `heads`
    // is scratch space of 4095 entries.
    fn block_of(&self, heads: &mut [u16], begin: u16, end: u16) -> BoundingBox
        requires end { end ≤ length self.now.map.now.lists }
        requires room { length heads.old ≡ 4095 }
        ensures range { IsBoxInRange result }
        ensures reach { (v : ℕ) → begin ≤ v → v < end → Reaches self.now.map.now.lists self.now.points.now result v }
    {
        let mut span = NO_SPAN;
        for v in begin..end {
            let count = self.star_heads(VertexId(v), v + 1, heads);
            let star = self.box_of(&heads[..count], 0, count);
            span = joined(span, widened(star, self.spot(VertexId(v))));
        }
        span
    }

    // Writes to `blocks[k]` a box of vertices 16 k to 16 k + 15 and their greater neighbours. `heads` is scratch space.
    pub(crate) fn fill_blocks(&self, heads: &mut [u16], blocks: &mut [BoundingBox])
        requires room { length heads.old ≡ 4095 }
        requires few { length blocks.old ≤ 256 }
        ensures { AreBlocks self.now.map.now.lists self.now.points.now blocks.new }
    {
        let n = self.map.n() as usize;
        for k in 0..blocks.len() {
            blocks[k] = self.block_of(heads, (16 * k) as u16, batch_begin(k + 1, n) as u16);
        }
    }
}
