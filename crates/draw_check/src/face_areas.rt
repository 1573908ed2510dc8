//! Twice the signed areas of all faces, each as a sum over the darts of the face.
ghost use Rattle.std.specs.Prelude.{◌<◌, ◌+◌, length, Some, IfOk};
ghost use Rattle.map_theory.specs.Maps.{darts_before, dart_count};
ghost use Rattle.half_edges.specs.Map.{IsLive, dart_at, first_dart};
ghost use Rattle.euler_faces.specs.Numbers.{number_at};
ghost use Rattle.euler_faces.specs.FaceWalks.{AreFaces};
ghost use Rattle.draw_check.specs.FaceSums.{AreSumsBelow};

use crate::drawing::PointDrawing;
use euler_faces::Faces;
use half_edges::{DartId, VertexId};
use pg_plane::{Point, area2};
use std::alloc::{AllocError, Global};

impl PointDrawing<'_> {
    // Adds to the entry of the face of `d` in `sums` twice the signed area of the triangle that `d` makes with (0, 0).
    // `sums` has one entry for each face and holds the areas of all darts before `d`.
    fn add_dart(&self, faces: &Faces, sums: &mut [i128], d: DartId)
        requires faces { AreFaces self.now.map.now faces.now }
        requires live { IsLive self.now.map.now d.0 }
        requires sums { AreSumsBelow self.now.map.now self.now.points.now faces.now (number_at self.now.map.now d.0) sums.old }
        ensures { AreSumsBelow self.now.map.now self.now.points.now faces.now (number_at self.now.map.now d.0 + 1) sums.new }
    {
        let a = self.spot(self.map.tail(d));
        let b = self.spot(self.map.head(d));
        let area = area2(Point { x: 0, y: 0 }, a.point, b.point);
        let face = faces.of_dart(d);
        sums[face.0 as usize] += i128::from(area);
    }

    // Adds the areas of all darts from `v` to the entries of their faces in `sums`, which holds those of lesser tails.
    fn add_vertex(&self, faces: &Faces, sums: &mut [i128], v: VertexId)
        requires faces { AreFaces self.now.map.now faces.now }
        requires vertex { v.0 < length self.now.map.now.lists }
        requires sums { AreSumsBelow self.now.map.now self.now.points.now faces.now (darts_before self.now.map.now.lists v.0) sums.old }
        ensures { AreSumsBelow self.now.map.now self.now.points.now faces.now (darts_before self.now.map.now.lists (v.0 + 1)) sums.new }
    {
        let Some(first) = self.map.first_dart(v) else {
            return;
        };
        let mut d = first;
        'round: loop {
            self.add_dart(faces, sums, d);
            d = self.map.next(d);
            if d.0 == first.0 {
                return;
            }
        }
    }

    // Adds the areas of all darts to the entries of their faces in `sums`, one for each face and 0 at first.
    fn add_all(&self, faces: &Faces, sums: &mut [i128])
        requires faces { AreFaces self.now.map.now faces.now }
        requires sums { AreSumsBelow self.now.map.now self.now.points.now faces.now 0 sums.old }
        ensures { AreSumsBelow self.now.map.now self.now.points.now faces.now (dart_count self.now.map.now.lists) sums.new }
    {
        for v in 0..self.map.n() {
            self.add_vertex(faces, sums, VertexId(v));
        }
    }

    // Returns twice the signed area of each face, by the number of the face. It fails only when out of memory.
    pub(crate) fn face_sums(&self, alloc: Global, faces: &Faces) -> Result<Vec<i128>, AllocError>
        requires faces { AreFaces self.now.map.now faces.now }
        ensures { IfOk result (λ sums. AreSumsBelow self.now.map.now self.now.points.now faces.now (dart_count self.now.map.now.lists) sums.items) }
    {
        let mut sums = vec![in alloc; 0; faces.count() as usize]?;
        self.add_all(faces, &mut sums);
        Ok(sums)
    }
}
