//! The rectangles of a figure, one for each vertex, and the first one that is empty or out of range.
ghost use Rattle.std.specs.Prelude.{◌≡◌, ◌<◌, ◌↔◌, IsTrue, MatchOption};
ghost use Rattle.vertex_rounds.specs.Least.{IsLeast};
ghost use Rattle.drawings.specs.Duals.{number_at, IsSpan, IsRect};
ghost use Rattle.rect_check.specs.Faults.{HasBadRect};
ghost use Rattle.rect_check.specs.Verdicts.{AreRects};

use half_edges::{HalfMap, VertexId};
use pg_plane::{Ints, RectFigure};

/// The rectangles of the vertices of a map: none is empty, and all lie within n - 2 by n - 2.
#[derive(Clone, Copy)]
pub(crate) struct Rects<'a> {
    pub(crate) map: &'a HalfMap,
    pub(crate) fig: &'a RectFigure,
    ghost rects: { AreRects map.now.lists fig.now },
}

// Returns entry `i` of `list`, or 0 past its end.
pub(crate) fn number_in(list: &Ints, i: usize) -> i32
    ensures { result ≡ number_at list.now i }
{
    if i < list.len() { list.get(i) } else { 0 }
}

// Returns the number of vertex `v` in `list`, or 0 past its end.
pub(crate) fn number(list: &Ints, v: VertexId) -> i32
    ensures { result ≡ number_at list.now v.0 }
{
    number_in(list, v.0 as usize)
}

// Says whether the interval of `v`, from its number in `first` to that in `last`, is nonempty and lies in 0 to n - 2.
fn is_span(n: u16, first: &Ints, last: &Ints, v: VertexId) -> bool
    ensures { IsTrue result ↔ IsSpan n (number_at first.now v.0) (number_at last.now v.0) }
{
    let p = number(first, v);
    let q = number(last, v);
    0 <= p && p < q && q <= i32::from(n) - 2
}

// Says whether the rectangle of `v` is not empty, and lies within n - 2 by n - 2.
fn is_rect(n: u16, fig: &RectFigure, v: VertexId) -> bool
    ensures { IsTrue result ↔ IsRect n fig.now v.0 }
{
    is_span(n, &fig.x1, &fig.x2, v) && is_span(n, &fig.y1, &fig.y2, v)
}

// Returns the least vertex whose rectangle is empty or not within n - 2 by n - 2, or `None`.
pub(crate) fn first_bad_rect(map: &HalfMap, fig: &RectFigure) -> Option<VertexId>
    ensures { MatchOption result (AreRects map.now.lists fig.now)
        (λ v. IsLeast (HasBadRect map.now.lists fig.now) v.0) }
{
    for v in 0..map.n() {
        if !is_rect(map.n(), fig, VertexId(v)) {
            return Some(VertexId(v));
        }
    }
    None
}
