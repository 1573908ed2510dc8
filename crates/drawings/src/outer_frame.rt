//! The four vertices of an outer face that is a quadrangle, as the type `OuterFour`.
ghost use Rattle.std.specs.Prelude.{◌≡◌, ◌↔◌, IsTrue, MatchOption};
ghost use Rattle.drawings.specs.Duals.{HasFrame};
ghost use Rattle.drawings.specs.Frames.{IsRoundOfFour, IsFrame};

use half_edges::{HalfMap, VertexId};

/// The vertices after vertex 0 on an outer face of four.
#[derive(Clone, Copy, PartialEq, Eq)]
pub struct OuterFour {
    /// The first neighbour of vertex 0.
    pub top: VertexId,
    /// The next one.
    pub right: VertexId,
    /// The last one.
    pub bottom: VertexId,
}

// Says whether a face walk over 0, the vertices of `frame`, `s` and `e` goes round four. Then 0 and those of `frame`
// are distinct, `s` is 0, and `e` is the top of `frame`.
fn is_round_of_four(frame: OuterFour, s: VertexId, e: VertexId) -> bool
    ensures { IsTrue result ↔ IsRoundOfFour frame.top.0 frame.right.0 frame.bottom.0 s.0 e.0 }
{
    let (d, p, q) = (frame.top.0, frame.right.0, frame.bottom.0);
    s.0 == 0 && e.0 == d && 0 != d && 0 != p && 0 != q && d != p && d != q && p != q
}

/// Returns the vertices after 0 on the face of its first dart, or None unless four darts walk it over four vertices.
pub fn outer_four(map: &HalfMap) -> Option<OuterFour>
    ensures { MatchOption result (¬ HasFrame map.now.lists) (λ f. IsFrame map.now.lists f.top.0 f.right.0 f.bottom.0) }
{
    let Some(first) = map.first_dart(VertexId(0)) else {
        return None;
    };
    let second = map.face_step(first);
    let third = map.face_step(second);
    let fourth = map.face_step(third);
    let fifth = map.face_step(fourth);
    let top = map.head(first);
    let right = map.head(second);
    let bottom = map.head(third);
    let frame = OuterFour { top, right, bottom };
    if is_round_of_four(frame, map.head(fourth), map.head(fifth)) {
        Some(frame)
    } else {
        None
    }
}
