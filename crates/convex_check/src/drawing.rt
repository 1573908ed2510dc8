//! A map over a base dart with a point for each vertex, as the type that the checks of convexity read.
ghost use Rattle.half_edges.specs.Map.{IsLive};
ghost use Rattle.plane_drawings.specs.Drawing.{HasPlaces};

use half_edges::{DartId, HalfMap};
use pg_plane::Points;

/// A map with a base dart, and a point for each of its vertices, within the range of coordinates.
#[derive(Clone, Copy)]
pub(crate) struct BasedDrawing<'a> {
    pub(crate) map: &'a HalfMap,
    pub(crate) points: &'a Points,
    pub(crate) base: DartId,
    ghost places: { HasPlaces map.now.lists points.now },
    ghost based: { IsLive map.now base.0 },
}
