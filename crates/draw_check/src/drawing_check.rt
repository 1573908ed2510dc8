//! The public calls `check` and `check_points`, which find the first fault of a straight-line drawing.
ghost use Rattle.std.specs.Prelude.{IfSome, MatchOption, ℤ};
ghost use Rattle.plane_drawings.specs.Drawing.{IsPlaneDrawing, HasPlaces};
ghost use Rattle.plane_drawings.specs.SweepCheckLines.{firm_lists};
ghost use Rattle.drawings.specs.Valid.{AllInGrid};
ghost use Rattle.draw_check.specs.Verdicts.{NoneShareAPlace, NoneOnEdge, NoneCross, IsVerdict, IsPlaneVerdict};

use crate::Verdict;
use crate::drawing::PointDrawing;
use crate::vertex_points::corner_of;
use half_edges::HalfMap;
use pg_plane::{GridFigure, Point, Points};
use plane_drawings::sweep_check::loose_vertices;

/// Returns the first fault of the drawing of `map` at `points`, in the order of the variants of `Verdict`, with the
/// least ids. `Yes` is returned where all points lie in the grid, the drawing is plane and the rotations are kept.
///
/// The grid goes from (0, 0) to `corner`. There is one point for each vertex, and no coordinate is beyond 2^20 in size.
/// It takes no memory from the heap. A sweep may find the drawing plane, or plane without the edges of a few excluded
/// vertices. Then the time is m log n for n vertices and m edges. To this come the moves of the lines that the sweep
/// meets, and the comparisons of the edges of excluded vertices with all else. Otherwise batches of 16 edges from one
/// vertex are compared with boxes of 16 vertices, and where those meet, each edge with each vertex. Edges are compared
/// with batches after them, up to the first edge that a later one crosses. This goes first by a box of what the edges
/// of 16 vertices reach, then one by one.
pub fn check_points(map: &HalfMap, points: &Points, corner: Point) -> Verdict
    requires { HasPlaces map.now.lists points.now }
    ensures { IsVerdict map.now.lists points.now corner.x corner.y result }
{
    let drawing = PointDrawing { map, points };
    if let Some(v) = drawing.first_outside(corner) {
        return Verdict::OutOfGrid(v);
    }
    if let Some(verdict) = drawing.first_pair() {
        return verdict;
    }
    match drawing.first_turned() {
        Some(v) => Verdict::Turned(v),
        None => Verdict::Yes,
    }
}

/// Returns the first fault of the drawing of the edges of `map` at `points`, wherever these stand and whatever the order
/// of the lists: two vertices at one point, a vertex on an edge, or two edges that cross. `Yes` is returned where the
/// drawing is plane. It takes the time of [`check_points`].
pub fn check_plane(map: &HalfMap, points: &Points) -> Verdict
    requires { HasPlaces map.now.lists points.now }
    ensures { IsPlaneVerdict map.now.lists points.now result }
{
    let drawing = PointDrawing { map, points };
    match drawing.first_pair() {
        Some(verdict) => verdict,
        None => Verdict::Yes,
    }
}

/// Checks a figure as [`check_points`] does its points, in its grid.
pub fn check(map: &HalfMap, fig: &GridFigure) -> Verdict
    requires { HasPlaces map.now.lists fig.now.points }
    ensures { IsVerdict map.now.lists fig.now.points fig.now.width fig.now.height result }
{
    check_points(map, &fig.points, corner_of(fig))
}

impl PointDrawing<'_> {
    // Returns the first vertex on an edge, or else the first two edges that cross, or `None`. All vertices must have
    // different points, and the drawing be plane without the edges of `loose` where that is given.
    fn first_meeting(&self, loose: Option<&[u16]>) -> Option<Verdict>
        requires apart { NoneShareAPlace self.now.map.now.lists self.now.points.now }
        requires plane { IfSome loose (λ l. IsPlaneDrawing (firm_lists l.now self.now.map.now.lists) self.now.points.now) }
        ensures verdict { MatchOption result (NoneShareAPlace self.now.map.now.lists self.now.points.now × NoneOnEdge self.now.map.now.lists self.now.points.now × NoneCross self.now.map.now.lists self.now.points.now)
            (λ verdict. (width height : ℤ) → AllInGrid self.now.map.now.lists self.now.points.now width height → IsVerdict self.now.map.now.lists self.now.points.now width height verdict) }
        ensures meeting { IfSome result (IsPlaneVerdict self.now.map.now.lists self.now.points.now) }
    {
        let from = self.first_on_edges(loose);
        if let Some((v, e)) = self.first_on_edge(from) {
            return Some(Verdict::OnEdge(v, e));
        }
        match self.first_crossing(loose) {
            Some((e, f)) => Some(Verdict::Cross(e, f)),
            None => None,
        }
    }

    // Returns the first two vertices at one point, else the first vertex on an edge, else the first two edges that
    // cross, or `None`. A sweep that finds the drawing plane, or so without a few vertices' edges, spares trying pairs.
    fn first_pair(&self) -> Option<Verdict>
        ensures verdict { MatchOption result (NoneShareAPlace self.now.map.now.lists self.now.points.now × NoneOnEdge self.now.map.now.lists self.now.points.now × NoneCross self.now.map.now.lists self.now.points.now)
            (λ verdict. (width height : ℤ) → AllInGrid self.now.map.now.lists self.now.points.now width height → IsVerdict self.now.map.now.lists self.now.points.now width height verdict) }
        ensures meeting { IfSome result (IsPlaneVerdict self.now.map.now.lists self.now.points.now) }
    {
        let mut loose = [0; 8];
        match loose_vertices(self.map, self.points, &mut loose) {
            Some(0) => None,
            Some(count) => self.first_meeting(Some(&loose[..count])),
            None => match self.first_shared() {
                Some((u, v)) => Some(Verdict::SamePlace(u, v)),
                None => self.first_meeting(None),
            },
        }
    }
}
