//! Promised contracts of drawing checks: yes exactly for a valid drawing, else the first fault with its least vertices.
ghost use Rattle.std.specs.Prelude.{◌≡◌, ◌<◌, ◌↔◌, IfOk, IsTrue};
ghost use Rattle.drawings.specs.Bars.{HasBars};
ghost use Rattle.bar_check.specs.Verdicts.{IsBarVerdict};
ghost use Rattle.convex_check.specs.Verdicts.{IsConvexVerdict};
ghost use Rattle.draw_check.specs.FaceVerdicts.{IsFaceVerdict};
ghost use Rattle.plane_drawings.specs.Drawing.{HasPlaces};
ghost use Rattle.draw_check.specs.Outer.{IsOuterVerdict};
ghost use Rattle.draw_check.specs.Verdicts.{IsPlaneVerdict, IsVerdict};
ghost use Rattle.figure_verdicts.specs.Verdicts.{IsFigureVerdict};
ghost use Rattle.half_edges.specs.Map.{IsLive};
ghost use Rattle.kuratowski.specs.Verdicts.{IsVerdict as IsWitnessVerdict};
ghost use Rattle.kuratowski.specs.Witnesses.{IsWitness};
ghost use Rattle.line_inputs.specs.Given.{IsGiven};
ghost use Rattle.plane_laws.specs.Triangulations.{IsTriangulation};
ghost use Rattle.drawings.specs.Duals.{HasRects};
ghost use Rattle.rect_check.specs.Verdicts.{IsRectVerdict};
ghost use Rattle.vertex_rounds.specs.Rounds.{dart_of};

use bar_check::BarVerdict;
use convex_check::ConvexVerdict;
use draw_check::{FaceVerdict, OuterVerdict, Verdict};
use figure_text::Figure;
use figure_verdicts::FigureVerdict;
use graphs::Graph;
use half_edges::HalfMap;
use kuratowski::{Witness, WitnessVerdict};
use map_lists::DartId;
use pg_plane::{BarFigure, GridFigure, Points, RectFigure};
use rect_check::RectVerdict;
use std::alloc::{AllocError, Global};

/// Checks that `fig` is plane, in its grid, and keeps the rotations of `map`.
pub fn check(map: &HalfMap, fig: &GridFigure) -> Verdict
    requires { HasPlaces map.now.lists fig.now.points }
    ensures { IsVerdict map.now.lists fig.now.points fig.now.width fig.now.height result }
{
    draw_check::check(map, fig)
}

/// Checks that the edges of `map`, drawn straight at `points`, are plane, whatever the order of its lists.
pub fn check_plane(map: &HalfMap, points: &Points) -> Verdict
    requires { HasPlaces map.now.lists points.now }
    ensures { IsPlaneVerdict map.now.lists points.now result }
{
    draw_check::check_plane(map, points)
}

/// Checks that `fig` is in its grid and draws each face of `tri` counterclockwise but that of `base`.
pub fn check_by_faces(tri: &HalfMap, base: DartId, fig: &GridFigure) -> FaceVerdict
    requires triangulation { IsTriangulation tri.now.lists }
    requires base { IsLive tri.now base.0 }
    requires places { HasPlaces tri.now.lists fig.now.points }
    ensures { IsFaceVerdict tri.now.lists fig.now.points fig.now.width fig.now.height (dart_of tri.now base.0) result }
{
    draw_check::check_by_faces(tri, base, fig)
}

/// Checks that `fig` has the face of `base` outside.
pub fn check_outer(
    alloc: Global,
    map: &HalfMap,
    base: DartId,
    fig: &GridFigure,
) -> Result<OuterVerdict, AllocError>
    requires base { IsLive map.now base.0 }
    requires places { HasPlaces map.now.lists fig.now.points }
    ensures { IfOk result (IsOuterVerdict map.now.lists fig.now.points (dart_of map.now base.0)) }
{
    draw_check::check_outer(alloc, map, base, fig)
}

/// Checks that `fig` draws no inner face of `map` bent, and the face of `base` as a triangle with flat angles.
pub fn check_convex(
    alloc: Global,
    map: &HalfMap,
    base: DartId,
    fig: &GridFigure,
) -> Result<ConvexVerdict, AllocError>
    requires base { IsLive map.now base.0 }
    requires places { HasPlaces map.now.lists fig.now.points }
    ensures { IfOk result (IsConvexVerdict map.now.lists fig.now.points (dart_of map.now base.0)) }
{
    convex_check::check_convex(alloc, map, base, fig)
}

/// Checks that `fig` is a rectangular dual of `map`.
pub fn check_rects(map: &HalfMap, fig: &RectFigure) -> RectVerdict
    requires { HasRects map.now.lists fig.now }
    ensures { IsRectVerdict map.now.lists fig.now result }
{
    rect_check::check_rects(map, fig)
}

/// Checks that `fig` is a visibility representation of `map` within `width`.
pub fn check_bars(map: &HalfMap, fig: &BarFigure, width: i32) -> BarVerdict
    requires { HasBars map.now.lists fig.now }
    ensures { IsBarVerdict map.now.lists fig.now width result }
{
    bar_check::check_bars(map, fig, width)
}

/// Checks that `witness` is a subdivision of K5 or K3,3 in `graph`.
pub fn check_witness(graph: &Graph, witness: &Witness) -> WitnessVerdict
    ensures verdict { IsWitnessVerdict graph.now witness.now.kind witness.now.branch witness.now.paths result }
    ensures yes { (result ≡ WitnessVerdict.Yes) ↔ IsWitness graph.now witness.now.kind witness.now.branch witness.now.paths }
{
    kuratowski::check_witness(graph, witness)
}

/// Tells whether `verdict` is yes.
pub fn is_yes(verdict: WitnessVerdict) -> bool
    ensures { IsTrue result ↔ (verdict ≡ WitnessVerdict.Yes) }
{
    verdict.is_yes()
}

/// Checks `figure` by the check of its kind.
pub fn figure_verdict(alloc: Global, figure: &Figure) -> Result<FigureVerdict, AllocError>
    requires { IsGiven figure.now }
    ensures { IfOk result (IsFigureVerdict figure.now) }
{
    figure_verdicts::figure_verdict(alloc, figure)
}
