//! The public call that makes the convex realizer of a map, read off the face counts of its convex drawing.
ghost use Rattle.std.specs.Prelude.{◌≡◌, ℕ, Some, IfOk};
ghost use Rattle.map_theory.specs.Maps.{IsPlane};
ghost use Rattle.convex_peeling.specs.Polyhedral.{IsThreeConnected};
ghost use Rattle.half_edges.specs.Map.{IsLive, dart_at};
ghost use Rattle.convex_faces.specs.Directions.{IsWoodIn, IsDrawnWood};

use crate::wood::axis_darts::outs_along;
use crate::wood::wood_type::ConvexWood;
use convex_counts::face_woods::Axis;
use convex_draw::convex_draw;
use half_edges::{DartId, HalfMap};
use std::alloc::{AllocError, Global};

/// Returns a convex realizer of `map`, three-connected and of genus zero, over `base`: three axes along which its edges
/// lead. The roots of the axes are the base's head and tail, and the vertex before the base on its face, the outer one.
///
/// Each edge is directed one way or both ways, and each direction has an axis, the two of one edge different ones. Each
/// vertex has one outgoing direction for each axis, but a root has none of its own. Counterclockwise round a vertex
/// stand the outgoing ones as one, two, three, and those of an axis that enter between the two others. No inner face
/// has an axis along which all its darts lead.
///
/// Some figure that meets the contract of `convex_draw` for this map and base is drawn by this wood. Its coordinates
/// are the numbers of faces in the regions of its vertices.
///
/// It fails only when out of memory. The map stays as it is. The time is linear in the map: the directions are read off
/// the face counts of the convex drawing, dart by dart.
///
/// Source: Felsner, Convex drawings of planar graphs and the order dimension of 3-polytopes, 2001.
pub fn convex_wood(alloc: Global, map: &HalfMap, base: DartId) -> Result<ConvexWood, AllocError>
    requires plane { IsPlane map.now.lists }
    requires three { IsThreeConnected map.now.lists }
    requires base { IsLive map.now base.0 }
    ensures wood { IfOk result (λ wood. (s d : ℕ) → dart_at map.now base.0 ≡ Some (s, d) → IsWoodIn map.now (s, d) wood) }
    ensures drawn { IfOk result (λ wood. (s d : ℕ) → dart_at map.now base.0 ≡ Some (s, d) → IsDrawnWood map.now s d wood) }
{
    let figure = convex_draw(alloc, map, base)?;
    let points = &figure.points;
    let ones = outs_along(alloc, map, points, Axis::One)?;
    let twos = outs_along(alloc, map, points, Axis::Two)?;
    let threes = outs_along(alloc, map, points, Axis::Three)?;
    let first = map.head(base);
    let second = map.tail(base);
    let before = map.prev(base);
    let third = map.head(before);
    Ok(ConvexWood {
        root_one: first.0,
        root_two: second.0,
        root_three: third.0,
        ones,
        twos,
        threes,
    })
}
