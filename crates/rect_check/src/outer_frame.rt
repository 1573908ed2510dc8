//! Whether the rectangles of the four vertices of the outer face lie along the sides of the frame.
ghost use Rattle.std.specs.Prelude.{◌≡◌, ◌↔◌, IsTrue, MatchOption};
ghost use Rattle.drawings.specs.Duals.{IsWide as IsAsWide, IsFramed};
ghost use Rattle.rect_check.specs.Faults.{IsFirstUnframed};

use crate::areas::greatest;
use crate::rects::number;
use drawings::OuterFour;
use half_edges::VertexId;
use pg_plane::RectFigure;

// Says whether the rectangle of `v` reaches over the whole width.
fn is_wide(fig: &RectFigure, v: VertexId) -> bool
    ensures { IsTrue result ↔ IsAsWide fig.now v.0 }
{
    number(&fig.x1, v) == 0 && number(&fig.x2, v) == greatest(&fig.x2)
}

// Returns the first of vertex 0 and those of `frame` whose rectangle is not along its side of the frame, or `None`.
pub(crate) fn first_unframed(fig: &RectFigure, frame: OuterFour) -> Option<VertexId>
    ensures { MatchOption result (IsFramed fig.now 0 frame.top.0 frame.right.0 frame.bottom.0)
        (λ v. IsFirstUnframed fig.now 0 frame.top.0 frame.right.0 frame.bottom.0 v.0) }
{
    if number(&fig.x1, VertexId(0)) != 0 {
        return Some(VertexId(0));
    }
    if !is_wide(fig, frame.top) || number(&fig.y2, frame.top) != greatest(&fig.y2) {
        return Some(frame.top);
    }
    if number(&fig.x2, frame.right) != greatest(&fig.x2) {
        return Some(frame.right);
    }
    if !is_wide(fig, frame.bottom) || number(&fig.y1, frame.bottom) != 0 {
        return Some(frame.bottom);
    }
    None
}
