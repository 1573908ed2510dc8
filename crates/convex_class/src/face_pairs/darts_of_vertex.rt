//! The darts from a vertex, copied into a vector in the order of its list.
ghost use Rattle.std.specs.Prelude.{◌≡◌, ◌<◌, [], length, Some, IfOk};
ghost use Rattle.half_edges.specs.Map.{dart_at, first_dart};
ghost use Rattle.euler_faces.specs.FaceWalks.{ids_of};
ghost use Rattle.convex_class.specs.Clear.{IsRing};

use crate::face_pairs::uncut_map::UncutMap;
use half_edges::{DartId, VertexId};
use std::alloc::AllocError;

impl UncutMap<'_> {
    // Fills `ring` with the darts from `v`, in the order of its list, in place of what is there.
    pub(crate) fn put_ring(&self, v: VertexId, ring: &mut Vec<DartId>) -> Result<(), AllocError>
        requires vertex { v.0 < length self.now.map.now.lists }
        ensures { IfOk result (λ _. IsRing self.now.map.now v.0 (ids_of ring.new.items)) }
    {
        self.facts();
        let map = self.map;
        ring.clear();
        let Some(first) = map.first_dart(v) else {
            return Ok(());
        };
        let mut d = first;
        for _ in 0..map.degree(v) {
            ring.push(d)?;
            d = map.next(d);
        }
        Ok(())
    }
}
