//! `Frame`: the four outer vertices of a map with a rectangular dual, and its lists with an added top-bottom edge.
ghost use Rattle.std.specs.Prelude.{◌≡◌, ℕ, Some, IfOk};
ghost use Rattle.half_edges.specs.Map.{IsLive, dart_at};
ghost use Rattle.rect_orders.specs.Maps.{IsRectMap, closed};
ghost use Rattle.rect_orders.specs.Frames.{IsFrameOf};

use half_edges::{DartId, HalfMap, Rotations, VertexId};
use plane_laws::with_edge_after;
use std::alloc::{AllocError, Global};

/// The vertices of the outer face, and one inside.
#[derive(Clone, Copy)]
pub struct Frame {
    /// The left vertex, which the base dart leaves.
    pub left: VertexId,
    /// The top, to which it leads.
    pub top: VertexId,
    /// The right vertex.
    pub right: VertexId,
    /// The bottom.
    pub bottom: VertexId,
    /// The vertex on a face with the left one and the bottom, on the other side of the outer face.
    pub inner: VertexId,
}

/// Returns the outer vertices of `map`, of the class of `rect`, on the face of the dart `base`, and one vertex inside.
pub fn frame_of(map: &HalfMap, base: DartId) -> Frame
    requires { IsLive map.now base.0 }
    ensures { (s d p t : ℕ) → dart_at map.now base.0 ≡ Some (s, d) → IsRectMap map.now.lists s d p t → IsFrameOf map.now.lists result s d p t }
{
    let along = map.face_step(base);
    let behind = map.face_step(along);
    let round = map.face_step(behind);
    Frame {
        left: map.tail(base),
        top: map.head(base),
        right: map.head(along),
        bottom: map.head(behind),
        inner: map.head(map.next(round)),
    }
}

/// Returns `lists` with an edge added between the top and the bottom of `frame`, in the outer face. For a map of the
/// class of `rect` they are a triangulation's. Fails only when out of memory.
pub fn with_closing_edge(
    alloc: Global,
    lists: &Rotations,
    frame: Frame,
) -> Result<Rotations, AllocError>
    ensures { IfOk result (λ more. more ≡ closed lists.now frame.left.0 frame.top.0 frame.right.0 frame.bottom.0) }
{
    with_edge_after(
        alloc,
        lists,
        frame.top.0,
        frame.left.0,
        frame.bottom.0,
        frame.right.0,
    )
}
