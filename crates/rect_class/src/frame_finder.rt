//! `FrameFinder`: the outer face of a map of `rect`'s class, by counts and corners of the lists, with no half-edge map.
ghost use Rattle.std.specs.Prelude.{◌≡◌, ◌≤◌, ◌<◌, ◌+◌, ◌*◌, ⊤, ℕ, length, slice_index, sum_by, IsTrue, MatchOption, IfOk};
ghost use Rattle.map_theory.specs.Maps.{IsSimpleMap, HasDart, follows, list_of};
ghost use Rattle.drawings.specs.Frames.{IsFrame};
ghost use Rattle.rect_class.specs.RectMaps.{IsRectMap};

use crate::cyclic_lists::Ring;
use crate::separation_by_corners::{are_closed, has_diagonal};
use conn_parts::plane_count;
use drawings::OuterFour;
use euler_faces::Counter;
use half_edges::{Rotations, VertexId};
use std::alloc::{AllocError, Global};

// Says whether `lists` are at least five, with 3n - 7 edges as in a map of the class. Only a yes is promised.
fn is_full(lists: &Rotations) -> bool
    ensures large { IsTrue result → 5 ≤ length lists.now }
    ensures full { IsTrue result → sum_by length lists.now + 14 ≡ 6 * length lists.now }
{
    lists.len() >= 5 && lists.total() == 6 * lists.len() - 14
}

/// Returns the vertex after `v` on the face of the dart from `u` to `v`, which the simple map `lists` has.
pub fn next_on_face(lists: &Rotations, u: VertexId, v: VertexId) -> VertexId
    requires simple { IsSimpleMap lists.now }
    requires dart { HasDart lists.now u.0 v.0 }
    ensures next { result.0 ≡ follows lists.now v.0 u.0 }
    ensures dart { HasDart lists.now v.0 result.0 }
{
    let ring = Ring {
        us: lists.list(usize::from(v.0)),
    };
    VertexId(ring.next(u.0))
}

// Returns the outer face, of vertex 0's first dart, if four darts walk it over four vertices; `None` promises nothing.
fn outer_face(lists: &Rotations) -> Option<OuterFour>
    requires simple { IsSimpleMap lists.now }
    requires some { 0 < length lists.now }
    ensures { MatchOption result ⊤ (λ f. IsFrame lists.now f.top.0 f.right.0 f.bottom.0) }
{
    let first = lists.list(0);
    if first.len() == 0 {
        return None;
    }
    let top = VertexId(first[0]);
    let right = next_on_face(lists, VertexId(0), top);
    let bottom = next_on_face(lists, top, right);
    let s = next_on_face(lists, right, bottom);
    let e = next_on_face(lists, bottom, s);
    if s.0 == 0 && e.0 == top.0 && right.0 != 0 && bottom.0 != top.0 {
        return Some(OuterFour { top, right, bottom });
    }
    None
}

/// Finds the outer faces of maps of the class, one map after another, and keeps its tables for the next.
///
/// They take some ten bytes for each dart of the largest map so far.
#[derive(Drop)]
pub struct FrameFinder {
    alloc: Global,
    counter: Counter,
}

impl FrameFinder {
    /// Makes a finder that has found nothing yet. It takes no memory.
    pub fn new(alloc: Global) -> FrameFinder {
        FrameFinder {
            alloc,
            counter: Counter::new(alloc),
        }
    }

    /// Returns the outer face of the map of `lists`, which are from 1 to 4095, if counts and corners show that it is of
    /// the class of `rect`. `None` leaves that open.
    ///
    /// A connected map of genus zero with 3n - 7 edges whose outer face is a quadrangle has only triangles besides.
    /// Where no edge joins two vertices of the outer face across it, the corners may show that no triangle of edges
    /// separates. After running out of memory the finder can be used again. The time is linear in the entries.
    pub fn frame(&mut self, lists: &Rotations) -> Result<Option<OuterFour>, AllocError>
        requires some_list { 0 < length lists.now }
        ensures { IfOk result (λ found. MatchOption found ⊤ (λ f. IsRectMap lists.now × IsFrame lists.now f.top.0 f.right.0 f.bottom.0)) }
    {
        lists.facts();
        if !is_full(lists) {
            return Ok(None);
        }
        let Ok(count) = plane_count(&mut self.counter, lists, 3) else {
            return Ok(None);
        };
        if count.c != 1 {
            return Ok(None);
        }
        let Some(four) = outer_face(lists) else {
            return Ok(None);
        };
        if has_diagonal(lists, four) {
            return Ok(None);
        }
        let closed = are_closed(self.alloc, lists)?;
        if closed {
            return Ok(Some(four));
        }
        Ok(None)
    }
}
