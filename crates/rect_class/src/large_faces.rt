//! The least dart of an inner face that is no triangle.
ghost use Rattle.std.specs.Prelude.{◌≡◌, ◌+◌, ◌<◌, ◌↔◌, ℕ, List, length, slice_index, IsTrue, Some, MatchOption};
ghost use Rattle.plane_laws.specs.Laws.{IsTriangle};
ghost use Rattle.half_edges.specs.Map.{IsLive, dart_at, first_dart};
ghost use Rattle.vertex_rounds.specs.Least.{IsLeast, IsLeastPair};
ghost use Rattle.vertex_rounds.specs.Rounds.{HoldsAt, dart_of};
ghost use Rattle.drawings.specs.Frames.{IsFrame};
ghost use Rattle.rect_class.specs.RectMaps.{HasLargeFace, HasTriangles};
ghost use Rattle.rect_class.specs.Loops.{IsDart as IsOneDart, IsFrameDart, IsLargeDart};

use drawings::OuterFour;
use half_edges::{DartId, HalfMap, VertexId};
use vertex_rounds::first_dart;

// Says whether the dart from `v` to `u` is that from `x` to `y`.
fn is_dart(v: VertexId, u: VertexId, x: VertexId, y: VertexId) -> bool
    ensures { IsTrue result ↔ IsOneDart v.0 u.0 x.0 y.0 }
{
    v.0 == x.0 && u.0 == y.0
}

// Says whether the dart from `v` to `u` is on the outer face, which is walked from vertex 0 over `four`.
fn is_frame_dart(four: OuterFour, v: VertexId, u: VertexId) -> bool
    ensures { IsTrue result ↔ IsFrameDart four.top.0 four.right.0 four.bottom.0 v.0 u.0 }
{
    is_dart(v, u, VertexId(0), four.top)
        || is_dart(v, u, four.top, four.right)
        || is_dart(v, u, four.right, four.bottom)
        || is_dart(v, u, four.bottom, VertexId(0))
}

// Says whether the face of dart `d` is a triangle.
fn is_triangle(map: &HalfMap, d: DartId) -> bool
    requires { IsLive map.now d.0 }
    ensures { IsTrue result ↔ IsTriangle map.now.lists (dart_of map.now d.0) }
{
    let second = map.face_step(d);
    let third = map.face_step(second);
    let fourth = map.face_step(third);
    fourth.0 == d.0
}

// Says whether the face of dart `d` is neither a triangle nor the outer one, which is walked from vertex 0 over `four`.
fn is_large(map: &HalfMap, four: OuterFour, d: DartId) -> bool
    requires { IsLive map.now d.0 }
    ensures { IsTrue result ↔ HoldsAt map.now (IsLargeDart map.now.lists four.top.0 four.right.0 four.bottom.0) d.0 }
{
    !is_triangle(map, d) && !is_frame_dart(four, map.tail(d), map.head(d))
}

// Returns the ends, tail first, of the least dart whose face is neither a triangle nor the outer one, walked from
// vertex 0 over `four`. `None` says that there is none.
pub(crate) fn first_large(map: &HalfMap, four: OuterFour) -> Option<(VertexId, VertexId)>
    requires { IsFrame map.now.lists four.top.0 four.right.0 four.bottom.0 }
    ensures { MatchOption result (HasTriangles map.now.lists)
        (λ p. IsLeastPair (HasLargeFace map.now.lists) p.0.0 p.1.0) }
{
    first_dart(map, |d| is_large(map, four, d))
}
