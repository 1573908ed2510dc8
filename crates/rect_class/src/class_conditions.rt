//! The conditions of the job `rect` on a record, in order: its map, or the first condition that it breaks.
ghost use Rattle.std.specs.Prelude.{◌≡◌, ◌<◌, length, MatchOption, IfOk, IfErr};
ghost use Rattle.refusals.specs.Conditions.{IfRefused};
ghost use Rattle.conn_parts.specs.BiconnectedMaps.{IsBiconnectedMap};
ghost use Rattle.drawings.specs.Frames.{IsFrame};
ghost use Rattle.rect_class.specs.RectMaps.{HasTriangles, NoneSeparating, IsRectMap};
ghost use Rattle.rect_class.specs.Refusals.{BreaksRect};

use crate::large_faces::first_large;
use crate::separation_by_corners::none_separates;
use crate::upper_neighbours::{Upper, upper_rows};
use conn_parts::biconnected_maps::biconnected_map;
use drawings::{OuterFour, outer_four};
use half_edges::{HalfMap, Rotations};
use refusals::{Refusal, Unserved};
use std::alloc::{AllocError, Global};

// The number of vertices on the outer face.
const OUTER_COUNT: u16 = 4;

// Returns the least separating triangle of the biconnected `map` as a refusal, or `None` if there is none. `lists` are
// those of `map`, and all faces but the outer one, `four`, are triangles.
fn first_of_triangles(
    alloc: Global,
    map: &HalfMap,
    lists: &Rotations,
    four: OuterFour,
) -> Result<Option<Refusal>, AllocError>
    requires lists { lists.now ≡ map.now.lists }
    requires biconnected { IsBiconnectedMap 3 map.now.lists }
    requires frame { IsFrame map.now.lists four.top.0 four.right.0 four.bottom.0 }
    requires faces { HasTriangles map.now.lists }
    ensures { IfOk result (λ found. MatchOption found (NoneSeparating map.now.lists) (λ refusal. BreaksRect map.now.lists refusal)) }
{
    if none_separates(alloc, lists, four)? {
        return Ok(None);
    }
    let rows = upper_rows(alloc, lists)?;
    let near = Upper { map, rows: &rows };
    match near.first_separating() {
        Some((a, b, c)) => Ok(Some(Refusal::SeparatingTriangle(a, b, c))),
        None => Ok(None),
    }
}

// Returns the first condition that a biconnected map breaks: on the outer face, the other faces, the triangles of
// edges, and the inner vertices. `None` says that it breaks none. `lists` are those of `map`.
fn first_broken(
    alloc: Global,
    map: &HalfMap,
    lists: &Rotations,
) -> Result<Option<Refusal>, AllocError>
    requires lists { lists.now ≡ map.now.lists }
    requires biconnected { IsBiconnectedMap 3 map.now.lists }
    ensures { IfOk result (λ found. MatchOption found (IsRectMap map.now.lists) (BreaksRect map.now.lists)) }
{
    let Some(four) = outer_four(map) else {
        return Ok(Some(Refusal::OuterNotQuad));
    };
    if let Some((v, u)) = first_large(map, four) {
        return Ok(Some(Refusal::NotTriangle(v, u)));
    }
    if let Some(refusal) = first_of_triangles(alloc, map, lists, four)? {
        return Ok(Some(refusal));
    }
    if map.n() <= OUTER_COUNT {
        Ok(Some(Refusal::NoInner))
    } else {
        Ok(None)
    }
}

/// Returns the half-edge map of `lists`, the from 1 to 4095 lists of a record, if it is of the class of `rect`. It then
/// has genus zero, is connected and has no cut vertex. Its outer face is a quadrangle, each other face is a triangle,
/// each triangle of edges is a face, and some vertex is inside.
///
/// `Err` names the first condition that the lists break, in the order of [`Refusal`], with the least vertices, or says
/// that memory ran out. For each edge it goes over the shorter of two lists. Only where a triangle may separate does it
/// look each common neighbour up among the neighbours of a vertex whose degree is no lower. The time is linear but for
/// the lengths of these lists, which are short also at hubs.
pub fn rect_map(alloc: Global, lists: &Rotations) -> Result<HalfMap, Unserved>
    requires some_list { 0 < length lists.now }
    ensures lists { IfOk result (λ map. map.lists ≡ lists.now) }
    ensures served { IfOk result (λ map. IsRectMap lists.now) }
    ensures refused { IfErr result (IfRefused (BreaksRect lists.now)) }
{
    let map = biconnected_map(alloc, lists, 3)?;
    map.facts();
    match first_broken(alloc, &map, lists)? {
        Some(refusal) => Err(Unserved::Refused(refusal)),
        None => Ok(map),
    }
}
