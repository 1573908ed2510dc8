//! The outer face, that of the base: whether its vertices lie on the sides of a triangle.
ghost use Rattle.std.specs.Prelude.{◌≡◌, ◌↔◌, ℕ, ◌<◌, length, All, IsTrue, IfOk, slice_index};
ghost use Rattle.half_edges.specs.Map.{IsLive};
ghost use Rattle.euler_faces.specs.FaceWalks.{AreFaces, ids_of};
ghost use Rattle.pg_plane.specs.Range.{IsInRange};
ghost use Rattle.vertex_rounds.specs.Rounds.{dart_of};
ghost use Rattle.drawings.specs.Convex.{HasOuterCorners};
ghost use Rattle.convex_check.specs.Walks.{AreWalkPlaces};

use crate::drawing::BasedDrawing;
use crate::inward_bends::place_at;
use crate::triangle_corners::has_corners;
use euler_faces::Faces;
use half_edges::DartId;
use pg_plane::Point;
use std::alloc::{AllocError, Global};

impl BasedDrawing<'_> {
    // Returns the points of the tails of the darts of `walk`.
    fn walk_points(&self, alloc: Global, walk: &[DartId]) -> Result<Vec<Point>, AllocError>
        requires { All (λ d. IsLive self.now.map.now d.0) walk.now }
        ensures { IfOk result (λ places. AreWalkPlaces self.now.map.now self.now.points.now (ids_of walk.now) places.items) }
    {
        let drawing = *self;
        let mut places = Vec::new(alloc);
        for d in walk {
            places.push(place_at(drawing.points, drawing.map.tail(*d)))?;
        }
        Ok(places)
    }

    // Says whether the base's face is a triangle with flat angles. Three of its vertices have an area other than 0, and
    // each vertex is on one of the segments between these three.
    pub(crate) fn is_outer_convex(&self, alloc: Global, faces: &Faces) -> Result<bool, AllocError>
        requires faces { AreFaces self.now.map.now faces.now }
        ensures { IfOk result (λ found. IsTrue found ↔ HasOuterCorners self.now.map.now.lists self.now.points.now (dart_of self.now.map.now self.now.base.0)) }
    {
        let walk = faces.walk(faces.of_dart(self.base));
        let places = self.walk_points(alloc, walk)?;
        Ok(has_corners(&places))
    }
}
