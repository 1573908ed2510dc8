//! Two rectangles: whether their interiors meet, whether they share a side, and whether their vertices are adjacent.
ghost use Rattle.std.specs.Prelude.{◌≡◌, ◌<◌, ◌↔◌, ◌<ℤ◌, IsTrue, length};
ghost use Rattle.map_theory.specs.Maps.{HasDart};
ghost use Rattle.drawings.specs.Duals.{left_of, right_of, low_of, high_of, DoMeet, IsBeside, IsAbove, ShareSide};

use crate::rects::number;
use half_edges::{HalfMap, VertexId};
use pg_plane::RectFigure;

// Says whether the rectangle of `u` begins to the left of the right side of that of `v`.
fn begins_before(fig: &RectFigure, u: VertexId, v: VertexId) -> bool
    ensures { IsTrue result ↔ (left_of fig.now u.0 <ℤ right_of fig.now v.0) }
{
    number(&fig.x1, u) < number(&fig.x2, v)
}

// Says whether the rectangle of `u` begins below the upper side of that of `v`.
fn begins_below(fig: &RectFigure, u: VertexId, v: VertexId) -> bool
    ensures { IsTrue result ↔ (low_of fig.now u.0 <ℤ high_of fig.now v.0) }
{
    number(&fig.y1, u) < number(&fig.y2, v)
}

// Says whether the interiors of the rectangles of `u` and `v` meet.
pub(crate) fn do_meet(fig: &RectFigure, u: VertexId, v: VertexId) -> bool
    ensures { IsTrue result ↔ DoMeet fig.now u.0 v.0 }
{
    begins_before(fig, u, v)
        && begins_before(fig, v, u)
        && begins_below(fig, u, v)
        && begins_below(fig, v, u)
}

// Says whether the rectangle of `v` is to the right of that of `u`, along a piece of a vertical line.
fn is_beside(fig: &RectFigure, u: VertexId, v: VertexId) -> bool
    ensures { IsTrue result ↔ IsBeside fig.now u.0 v.0 }
{
    number(&fig.x2, u) == number(&fig.x1, v) && begins_below(fig, u, v) && begins_below(fig, v, u)
}

// Says whether the rectangle of `v` is above that of `u`, along a piece of a horizontal line.
fn is_above(fig: &RectFigure, u: VertexId, v: VertexId) -> bool
    ensures { IsTrue result ↔ IsAbove fig.now u.0 v.0 }
{
    number(&fig.y2, u) == number(&fig.y1, v) && begins_before(fig, u, v) && begins_before(fig, v, u)
}

// Says whether the rectangles of `u` and `v` share a side of positive length.
pub(crate) fn share_side(fig: &RectFigure, u: VertexId, v: VertexId) -> bool
    ensures { IsTrue result ↔ ShareSide fig.now u.0 v.0 }
{
    is_beside(fig, u, v) || is_beside(fig, v, u) || is_above(fig, u, v) || is_above(fig, v, u)
}

// Says whether `v` is in the list of `u`.
fn is_in_list(map: &HalfMap, u: VertexId, v: VertexId) -> bool
    requires u { u.0 < length map.now.lists }
    requires v { v.0 < length map.now.lists }
    ensures { IsTrue result ↔ HasDart map.now.lists u.0 v.0 }
{
    match map.dart_of(u, v) {
        Some(_) => true,
        None => false,
    }
}

// Says whether two vertices are adjacent. It goes over the shorter list.
pub(crate) fn are_adjacent(map: &HalfMap, u: VertexId, v: VertexId) -> bool
    requires u { u.0 < length map.now.lists }
    requires v { v.0 < length map.now.lists }
    ensures { IsTrue result ↔ HasDart map.now.lists u.0 v.0 }
{
    if map.degree(u) <= map.degree(v) {
        is_in_list(map, u, v)
    } else {
        is_in_list(map, v, u)
    }
}
