//! A table of the darts that leave the vertices along one axis.
ghost use Rattle.std.specs.Prelude.{◌≡◌, ◌<◌, length, IfOk};
ghost use Rattle.plane_drawings.specs.Drawing.{place};
ghost use Rattle.half_edges.specs.Map.{id_bound};
ghost use Rattle.convex_faces.specs.Notes.{AreNoted};

use crate::wood::axis_directions::rises;
use convex_counts::face_woods::Axis;
use half_edges::{DartId, HalfMap, VertexId};
use pg_plane::{Point, Points};
use std::alloc::{AllocError, Global};

// Returns the point of `v`.
fn place_at(points: &Points, v: VertexId) -> Point
    requires { v.0 < length points.now }
    ensures { result ≡ place points.now v.0 }
{
    points.get(v.0 as usize)
}

// Writes into `outs`, one entry for each vertex, at its tail the id of each dart of `map` that leads along `axis`.
// Along such a dart the axis's coordinate alone rises, by the `points` of the vertices.
fn note_all(map: &HalfMap, points: &Points, axis: Axis, outs: &mut [u32])
    requires points { length points.now ≡ length map.now.lists }
    requires outs { length outs.old ≡ length map.now.lists }
    ensures { AreNoted map.now points.now axis (id_bound map.now) outs.new }
{
    let ids = 2 * (map.m() + map.spare());
    for id in 0..ids {
        let d = DartId(id);
        if !map.is_live(d) {
            continue;
        }
        let v = map.tail(d);
        let u = map.head(d);
        if !rises(axis, place_at(points, v), place_at(points, u)) {
            continue;
        }
        outs[v.0 as usize] = id;
    }
}

// Returns for each vertex the id of the dart that leaves it along `axis`, by `points`, and any number where none does.
pub(crate) fn outs_along(
    alloc: Global,
    map: &HalfMap,
    points: &Points,
    axis: Axis,
) -> Result<Vec<u32>, AllocError>
    requires { length points.now ≡ length map.now.lists }
    ensures count { IfOk result (λ outs. length outs.items ≡ length map.now.lists) }
    ensures noted { IfOk result (λ outs. AreNoted map.now points.now axis (id_bound map.now) outs.items) }
{
    let mut outs = vec![in alloc; 0; map.n() as usize]?;
    note_all(map, points, axis, &mut outs);
    Ok(outs)
}
