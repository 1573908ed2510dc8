//! Fills all faces of a connected map with triangles, by cutting ears.
ghost use Rattle.std.specs.Prelude.{◌≡◌, ◌+◌, ◌*◌, ℕ, Some};
ghost use Rattle.map_theory.specs.Maps.{edge_count, vertex_count};
ghost use Rattle.half_edges.specs.Map.{Map, IsLive, dart_at};
ghost use Rattle.augment_tri.specs.Growing.{IsCovered, IsFillable, IsFilled, IsGrown};

use crate::ears::{cut_near, is_triangle};
use half_edges::{DartId, HalfMap};

// Adds edges to `map`, as `fill` needs it, that cut ears off the face of dart `d` until all its parts are triangles.
fn fill_face(map: &mut HalfMap, d: DartId)
    requires fillable { IsFillable map.old }
    requires live { IsLive map.old d.0 }
    ensures fillable { IsFillable map.new }
    ensures grown { IsGrown map.old map.new }
    ensures filled { (first : Map) (k a b : ℕ) → dart_at map.old d.0 ≡ Some (a, b) → IsCovered first k map.old.lists a b
        → IsFilled first k map.new.lists }
{
    let mut at = d;
    while !is_triangle(map, at) {
        at = cut_near(map, at);
    }
}

// Adds edges to `map`, face by face, until it has 3n - 6 of them and all faces are triangles. `map` must be connected,
// of genus zero, with n at least 3 and room for 3n - 6 edges.
pub(crate) fn fill(map: &mut HalfMap)
    requires { IsFillable map.old }
    ensures fillable { IsFillable map.new }
    ensures grown { IsGrown map.old map.new }
    ensures edges { edge_count map.new.lists + 6 ≡ 3 * vertex_count map.new.lists }
{
    let bound = 2 * (map.m() + map.spare());
    let most = 3 * map.n() as u32 - 6;
    for d in 0..bound {
        if map.m() == most {
            return;
        }
        if map.is_live(DartId(d)) {
            fill_face(map, DartId(d));
        }
    }
}
