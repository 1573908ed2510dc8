//! Calls that make a record's three-connected map, from its biconnected map and the search for separating pairs.
ghost use Rattle.std.specs.Prelude.{◌≡◌, ◌<◌, length, IfOk, IfErr};
ghost use Rattle.map_theory.specs.Maps.{IsPlane};
ghost use Rattle.convex_peeling.specs.Polyhedral.{IsThreeConnected};
ghost use Rattle.euler_faces.specs.FaceWalks.{AreFaces};
ghost use Rattle.refusals.specs.Conditions.{IfRefused};
ghost use Rattle.convex_class.specs.Convexity.{BreaksConvex};

use crate::face_pairs::separating_pair_by;
use conn_parts::biconnected_maps::biconnected_map;
use euler_faces::{Faces, faces};
use half_edges::{HalfMap, Rotations};
use refusals::{Refusal, Unserved};
use std::alloc::Global;

/// A three-connected map of genus zero, and its faces.
#[derive(Drop)]
pub struct ConvexMap {
    /// The map.
    pub map: HalfMap,
    /// Its faces.
    pub faces: Faces,
}

/// Returns the map of a record with these 1 to 4095 `lists`, three-connected and of genus zero, with its faces.
///
/// `Err` names the first condition that the lists break, in the order of [`Refusal`], with the least
/// vertices. Or there was not enough memory. The time and the memory are linear in the entries.
pub fn convex_map(alloc: Global, lists: &Rotations) -> Result<ConvexMap, Unserved>
    requires some_list { 0 < length lists.now }
    ensures lists { IfOk result (λ found. found.map.lists ≡ lists.now) }
    ensures faces { IfOk result (λ found. AreFaces found.map found.faces) }
    ensures plane { IfOk result (λ found. IsPlane lists.now) }
    ensures served { IfOk result (λ found. IsThreeConnected lists.now) }
    ensures refused { IfErr result (IfRefused (BreaksConvex lists.now)) }
{
    let map = biconnected_map(alloc, lists, 4)?;
    let all = faces(alloc, &map)?;
    match separating_pair_by(alloc, &map, &all)? {
        Some((u, v)) => Err(Unserved::Refused(Refusal::SeparatingPair(u, v))),
        None => Ok(ConvexMap { map, faces: all }),
    }
}
