//! The points of the vertices: whether they lie in the grid, and whether two are equal.
ghost use Rattle.std.specs.Prelude.{◌≡◌, ◌<◌, ◌↔◌, length, IsTrue, MatchOption};
ghost use Rattle.pg_plane.specs.Range.{IsInRange};
ghost use Rattle.plane_drawings.specs.Drawing.{place, IsInGrid};
ghost use Rattle.vertex_rounds.specs.Least.{IsLeast, IsLeastPair};
ghost use Rattle.draw_check.specs.Faults.{LeavesGrid, ShareAPlace};
ghost use Rattle.drawings.specs.Valid.{AllInGrid};
ghost use Rattle.draw_check.specs.Verdicts.{NoneShareAPlace};

use crate::drawing::PointDrawing;
use half_edges::VertexId;
use pg_plane::{GridFigure, Point, Points};

// A point within the range of coordinates.
#[derive(Clone, Copy)]
pub(crate) struct PlacedPoint {
    pub(crate) point: Point,
    ghost range: { IsInRange point },
}

// Returns the point of `v`.
pub(crate) fn place_at(points: &Points, v: VertexId) -> Point
    requires { v.0 < length points.now }
    ensures { result ≡ place points.now v.0 }
{
    points.get(v.0 as usize)
}

// Returns the upper right corner of the grid of `fig`.
pub(crate) fn corner_of(fig: &GridFigure) -> Point
    ensures x { result.x ≡ fig.now.width }
    ensures y { result.y ≡ fig.now.height }
{
    Point {
        x: fig.width,
        y: fig.height,
    }
}

// Says whether `p` lies in the grid from (0, 0) to `corner`.
pub(crate) fn is_in_grid(p: Point, corner: Point) -> bool
    ensures { IsTrue result ↔ IsInGrid corner.x corner.y p }
{
    0 <= p.x && p.x <= corner.x && 0 <= p.y && p.y <= corner.y
}

impl PointDrawing<'_> {
    // Returns the point of `v`, which is within the range of coordinates.
    pub(crate) fn spot(&self, v: VertexId) -> PlacedPoint
        requires { v.0 < length self.now.points.now }
        ensures { result.point ≡ place self.now.points.now v.0 }
    {
        PlacedPoint {
            point: place_at(self.points, v),
        }
    }

    // Returns the least vertex outside the grid from (0, 0) to `corner`, or `None`.
    pub(crate) fn first_outside(&self, corner: Point) -> Option<VertexId>
        ensures { MatchOption result (AllInGrid self.now.map.now.lists self.now.points.now corner.x corner.y)
            (λ v. IsLeast (LeavesGrid self.now.map.now.lists self.now.points.now corner.x corner.y) v.0) }
    {
        for v in 0..self.map.n() {
            if !is_in_grid(place_at(self.points, VertexId(v)), corner) {
                return Some(VertexId(v));
            }
        }
        None
    }

    // Returns the least two vertices that have equal points, the lesser first, or `None`.
    pub(crate) fn first_shared(&self) -> Option<(VertexId, VertexId)>
        ensures { MatchOption result (NoneShareAPlace self.now.map.now.lists self.now.points.now)
            (λ p. IsLeastPair (ShareAPlace self.now.map.now.lists self.now.points.now) p.0.0 p.1.0) }
    {
        for u in 0..self.map.n() {
            let p = place_at(self.points, VertexId(u));
            for v in u + 1..self.map.n() {
                let q = place_at(self.points, VertexId(v));
                if p.x == q.x && p.y == q.y {
                    return Some((VertexId(u), VertexId(v)));
                }
            }
        }
        None
    }
}
