//! The verdict on a straight-line drawing of a simple map, and the quick yes for a triangulation.
ghost use Rattle.std.specs.Prelude.{◌≡◌, ◌<◌, length, None, IfOk, ℤ};
ghost use Rattle.std.specs.Bool.{OnTrue};
ghost use Rattle.map_lists.specs.Lists.{Lists};
ghost use Rattle.map_theory.specs.Maps.{IsSimpleMap, component_count};
ghost use Rattle.simple_maps.specs.Faults.{first_fault};
ghost use Rattle.plane_laws.specs.Triangulations.{IsTriangulation};
ghost use Rattle.conn_parts.specs.Counted.{IsCountOf};
ghost use Rattle.line_inputs.specs.Given.{IsGivenGrid};
ghost use Rattle.plane_drawings.specs.Drawing.{HasPlaces};
ghost use Rattle.draw_check.specs.Verdicts.{IsVerdict};
ghost use Rattle.figure_verdicts.specs.Verdicts.{IsDrawnVerdict};
ghost use Rattle.figure_verdicts.specs.declared.verdict.FigureVerdict.TheVariants.{Yes as FigureYes};
ghost use Rattle.draw_check.specs.declared.verdict.Verdict.TheVariants.{Yes as NoFault};

use crate::FigureVerdict;
use draw_check::{OuterVerdict, Verdict, check_outer_connected, check_points, is_drawn_well};
use euler_faces::{EulerCount, count_lists};
use half_edges::{HalfMap, VertexId};
use map_lists::Rotations;
use pg_plane::{Point, Points};
use simple_maps::no_fault_is_simple;
use std::alloc::{AllocError, Global};

// Says whether `count`, of a simple map, has n >= 3, m = 3n - 6 edges and genus zero. Only a yes is promised.
fn is_triangulation(count: EulerCount) -> bool
    ensures { (lists : Lists) → IsSimpleMap lists → IsCountOf lists count → OnTrue result (IsTriangulation lists) }
{
    3 <= count.n && count.m + 6 == 3 * count.n && count.n + count.f == 2 * count.c + count.m
}

// Says whether `lists`, at least one, are a triangulation. False promises nothing, and also comes without memory.
fn are_triangulation(alloc: Global, lists: &Rotations) -> bool
    requires some_list { 0 < length lists.now }
    ensures { OnTrue result ((first_fault lists.now ≡ None) × IsTriangulation lists.now) }
{
    no_fault_is_simple();
    match count_lists(alloc, lists) {
        Ok(count) => is_triangulation(count),
        Err(_) => false,
    }
}

/// Says whether a quick test, with no half-edge map, shows that `lists` are a triangulation validly drawn at `points`
/// in the grid up to `corner`. False proves nothing.
pub fn is_drawn_triangulation(
    alloc: Global,
    lists: &Rotations,
    points: &Points,
    corner: Point,
) -> bool
    requires { IsGivenGrid lists.now points.now }
    ensures simple { OnTrue result (first_fault lists.now ≡ None) }
    ensures valid { OnTrue result (IsDrawnVerdict lists.now points.now corner.x corner.y FigureYes) }
{
    3 <= lists.len()
        && lists.total() == 6 * lists.len() - 12
        && is_drawn_well(lists, points, corner)
        && are_triangulation(alloc, lists)
}

/// A straight-line drawing of a simple map with its counts, whose coordinates are not beyond 2^20 in size.
#[derive(Clone, Copy)]
pub struct MapDrawing<'a> {
    pub alloc: Global,
    pub map: &'a HalfMap,
    pub count: EulerCount,
    pub points: &'a Points,
    pub ghost counted: { IsCountOf map.now.lists count },
    pub ghost places: { HasPlaces map.now.lists points.now },
}

impl MapDrawing<'_> {
    // Returns the verdict on a faultless drawing of a connected map by its outer face: `Inside` or `Yes`.
    fn outer_verdict(&self) -> Result<FigureVerdict, AllocError>
        requires { component_count self.now.map.now.lists ≡ 1 }
        ensures { IfOk result (λ verdict. (width height : ℤ) → IsVerdict self.now.map.now.lists self.now.points.now width height NoFault
            → IsDrawnVerdict self.now.map.now.lists self.now.points.now width height verdict) }
    {
        match self.map.first_dart(VertexId(0)) {
            Some(base) => match check_outer_connected(self.alloc, self.map, base, self.points)? {
                OuterVerdict::Inside(v, u) => Ok(FigureVerdict::Inside(v, u)),
                OuterVerdict::Yes => Ok(FigureVerdict::Yes),
            },
            // the map has one vertex
            None => Ok(FigureVerdict::Yes),
        }
    }

    // Returns the verdict on a faultless drawing by its outer face: `Yes`, or `Inside` if the map is connected.
    fn faultless_verdict(&self) -> Result<FigureVerdict, AllocError>
        ensures { IfOk result (λ verdict. (width height : ℤ) → IsVerdict self.now.map.now.lists self.now.points.now width height NoFault
            → IsDrawnVerdict self.now.map.now.lists self.now.points.now width height verdict) }
    {
        if self.count.c == 1 {
            self.outer_verdict()
        } else {
            Ok(FigureVerdict::Yes)
        }
    }

    /// Returns the first fault of the drawing in the grid up to `corner` as `Drawing`. If it has none, it returns
    /// `Inside` with the least dart of a face that is turned inside out, or `Yes`.
    pub fn drawn_verdict(&self, corner: Point) -> Result<FigureVerdict, AllocError>
        ensures { IfOk result (IsDrawnVerdict self.now.map.now.lists self.now.points.now corner.x corner.y) }
    {
        match check_points(self.map, self.points, corner) {
            Verdict::Yes => {
                let verdict = self.faultless_verdict()?;
                Ok(verdict)
            }
            verdict => Ok(FigureVerdict::Drawing(verdict)),
        }
    }
}
