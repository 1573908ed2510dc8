//! The public call `figure_verdict`: chooses the check by the kind of the figure, and the grid by its job.
ghost use Rattle.std.specs.Prelude.{◌≡◌, ◌≢◌, ◌<◌, ◌≤◌, length, ℤ, pos, ◌-ℤ◌, IfOk};
ghost use Rattle.map_lists.specs.Lists.{Lists};
ghost use Rattle.bar_check.specs.Verdicts.{IsBarVerdict};
ghost use Rattle.pg_plane.specs.declared.figures.BarFigure.{BarFigure as Bars};
ghost use Rattle.pg_plane.specs.declared.figures.RectFigure.{RectFigure as Rects};
ghost use Rattle.rect_check.specs.Verdicts.{IsRectVerdict};
ghost use Rattle.line_inputs.specs.Given.{IsGiven, IsGivenGrid, IsGivenBars, IsGivenRects};
ghost use Rattle.std.specs.Bool.{OnTrue};
ghost use Rattle.figure_text.specs.declared.figure.GridJob.TheVariants.{Convex as ConvexJob};
ghost use Rattle.figure_verdicts.specs.declared.verdict.FigureVerdict.TheVariants.{Yes as FigureYes};
ghost use Rattle.figure_verdicts.specs.Validity.{less_one, grid_width, grid_height};
ghost use Rattle.map_theory.specs.Maps.{face_count};
ghost use Rattle.figure_verdicts.specs.Verdicts.{IsDrawnVerdict, IsShapedVerdict, IsJobVerdict, IsFittingVerdict, IsGridVerdict, IsColumnsVerdict, IsBarsVerdict, IsTiledVerdict, IsRectsVerdict, IsWitnessVerdict, IsFigureVerdict};

use crate::FigureVerdict;
use crate::drawing_verdicts::{MapDrawing, is_drawn_triangulation};
use bar_check::{BarVerdict, check_bars};
use conn_parts::counted_map;
use figure_text::{Figure, GridJob};
use graphs::Graph;
use half_edges::{HalfMap, MapFault};
use kuratowski::{Witness, WitnessVerdict, check_witness};
use map_lists::Rotations;
use pg_plane::{BarFigure, Point, Points, RectFigure};
use rect_check::{RectVerdict, check_rects};
use std::alloc::{AllocError, Global};

// Converts `n`, below 8192, to a signed number.
fn signed(n: usize) -> i32
    requires { n < 8192 }
    ensures { result ≡ pos n }
{
    n as i32
}

// Returns the grid width of a drawing by `job` with `n` vertices and `f` faces. Only convex drawings depend on `f`.
fn width(job: GridJob, n: usize, f: u32) -> i32
    requires few_vertices { n < 4096 }
    requires few_faces { f ≤ 16777216 }
    ensures { (lists : Lists) → length lists ≡ n → (job ≡ ConvexJob → face_count lists ≡ f) → result ≡ grid_width job lists }
{
    match job {
        GridJob::Shift => signed(2 * n) - 4,
        GridJob::Schnyder => signed(n) - 2,
        GridJob::Convex => bars_width(f),
    }
}

// Returns the height of the grid of a drawing by `job` of a map with `n` vertices and `f` faces.
fn height(job: GridJob, n: usize, f: u32) -> i32
    requires few_vertices { n < 4096 }
    requires few_faces { f ≤ 16777216 }
    ensures { (lists : Lists) → length lists ≡ n → (job ≡ ConvexJob → face_count lists ≡ f) → result ≡ grid_height job lists }
{
    match job {
        GridJob::Convex => bars_width(f),
        _ => signed(n) - 2,
    }
}

// Returns the upper right corner of the grid of a drawing of `n` vertices by `job`, which is not `Convex`.
fn corner_of(job: GridJob, n: usize) -> Point
    requires { n < 4096 }
    ensures x { (lists : Lists) → length lists ≡ n → job ≢ ConvexJob → result.x ≡ grid_width job lists }
    ensures y { (lists : Lists) → length lists ≡ n → job ≢ ConvexJob → result.y ≡ grid_height job lists }
{
    Point {
        x: width(job, n, 0),
        y: height(job, n, 0),
    }
}

// Says whether the drawing of `lists` at `points` by `job` is seen to be valid with no map made. A no promises nothing.
fn is_seen_valid(alloc: Global, job: GridJob, lists: &Rotations, points: &Points) -> bool
    requires { IsGivenGrid lists.now points.now }
    ensures { OnTrue result (IsGridVerdict job lists.now points.now FigureYes) }
{
    match job {
        GridJob::Convex => false,
        _ => is_drawn_triangulation(alloc, lists, points, corner_of(job, lists.len())),
    }
}

// Returns `Refused` with the `fault` of lists that are no simple map, or fails if the fault is `NoMemory`.
fn refused(fault: MapFault) -> Result<FigureVerdict, AllocError>
    ensures { IfOk result (λ verdict. (verdict ≡ FigureVerdict.Refused fault) × (fault ≢ MapFault.NoMemory)) }
{
    match fault {
        MapFault::NoMemory => Err(AllocError),
        _ => Ok(FigureVerdict::Refused(fault)),
    }
}

impl MapDrawing<'_> {
    // Returns the verdict on the drawing in the grid up to `corner`. If `job` is `Convex`, its faces must be convex.
    fn job_verdict(&self, job: GridJob, corner: Point) -> Result<FigureVerdict, AllocError>
        ensures { IfOk result (IsJobVerdict job self.now.map.now.lists self.now.points.now corner.x corner.y) }
    {
        match job {
            GridJob::Convex => self.convex_verdict(corner),
            _ => self.drawn_verdict(corner),
        }
    }

    // Returns the verdict on the drawing in the grid of its `job`.
    fn map_verdict(&self, job: GridJob) -> Result<FigureVerdict, AllocError>
        ensures { IfOk result (IsFittingVerdict job self.now.map.now.lists self.now.points.now) }
    {
        let n = usize::from(self.map.n());
        let wide = width(job, n, self.count.f);
        let high = height(job, n, self.count.f);
        let corner = Point { x: wide, y: high };
        let verdict = self.job_verdict(job, corner)?;
        Ok(verdict)
    }
}

// Returns the verdict on the drawing of `lists`, which may be no simple map, at `points`, one for each list, by `job`.
fn grid_verdict(
    alloc: Global,
    job: GridJob,
    lists: &Rotations,
    points: &Points,
) -> Result<FigureVerdict, AllocError>
    requires { IsGivenGrid lists.now points.now }
    ensures { IfOk result (IsGridVerdict job lists.now points.now) }
{
    if is_seen_valid(alloc, job, lists, points) {
        return Ok(FigureVerdict::Yes);
    }
    match counted_map(alloc, lists) {
        Ok(found) => {
            let drawing = MapDrawing {
                alloc,
                map: &found.map,
                count: found.count,
                points,
            };
            let verdict = drawing.map_verdict(job)?;
            Ok(verdict)
        }
        Err(fault) => refused(fault),
    }
}

// Returns the width of a visibility drawing of a map with `f` faces.
fn bars_width(f: u32) -> i32
    requires { f ≤ 16777216 }
    ensures { result ≡ less_one f }
{
    f as i32 - 1
}

// Converts `verdict`, of the check of bars, to `Yes` or to `Bars` with that verdict.
fn of_bars(verdict: BarVerdict) -> FigureVerdict
    ensures { (lists : Lists) (bars : Bars) (width : ℤ) → IsBarVerdict lists bars width verdict → IsColumnsVerdict lists bars width result }
{
    match verdict {
        BarVerdict::Yes => FigureVerdict::Yes,
        _ => FigureVerdict::Bars(verdict),
    }
}

// Returns the verdict on `bars` as drawn for `lists`: `Refused` if these are no simple map, else `Bars` or `Yes`.
fn bars_verdict(
    alloc: Global,
    lists: &Rotations,
    bars: &BarFigure,
) -> Result<FigureVerdict, AllocError>
    requires { IsGivenBars lists.now bars.now }
    ensures { IfOk result (IsBarsVerdict lists.now bars.now) }
{
    match counted_map(alloc, lists) {
        Ok(found) => {
            let verdict = check_bars(&found.map, bars, bars_width(found.count.f));
            Ok(of_bars(verdict))
        }
        Err(fault) => refused(fault),
    }
}

// Converts `verdict`, of the check of rectangles, to `Yes` or to `Rects` with that verdict.
fn of_rects(verdict: RectVerdict) -> FigureVerdict
    ensures { (lists : Lists) (rects : Rects) → IsRectVerdict lists rects verdict → IsTiledVerdict lists rects result }
{
    match verdict {
        RectVerdict::Yes => FigureVerdict::Yes,
        _ => FigureVerdict::Rects(verdict),
    }
}

// Returns the verdict on `rects` as a dual of `lists`: `Refused` if these are no simple map, else `Rects` or `Yes`.
fn rects_verdict(
    alloc: Global,
    lists: &Rotations,
    rects: &RectFigure,
) -> Result<FigureVerdict, AllocError>
    requires { IsGivenRects lists.now rects.now }
    ensures { IfOk result (IsRectsVerdict lists.now rects.now) }
{
    match HalfMap::from_rotations(alloc, lists) {
        Ok(map) => Ok(of_rects(check_rects(&map, rects))),
        Err(fault) => refused(fault),
    }
}

// Returns the verdict on `witness` for `graph`: `Yes`, or `Witness` with its first fault.
fn witness_verdict(graph: &Graph, witness: &Witness) -> FigureVerdict
    ensures { IsWitnessVerdict graph.now witness.now result }
{
    match check_witness(graph, witness) {
        WitnessVerdict::Yes => FigureVerdict::Yes,
        verdict => FigureVerdict::Witness(verdict),
    }
}

/// Returns the verdict on `figure`, whose numbers are within the ranges of its text: its first fault, or `Yes`.
///
/// Lists that are no simple map give their first fault. Bars are judged within the width f - 1, for f faces. A
/// straight-line drawing is judged in its grid: 2n - 4 by n - 2 for the shift method, n - 2 by n - 2 for Schnyder's,
/// and f - 1 by f - 1 for a convex one. If it has no fault there and the map is connected, the face of the first
/// vertex's first dart has to be outside; else the least dart of a face turned inside out is named. Of a convex drawing
/// how a face bends is named instead. A witness has no lists: its verdict is its own first fault.
pub fn figure_verdict(alloc: Global, figure: &Figure) -> Result<FigureVerdict, AllocError>
    requires { IsGiven figure.now }
    ensures { IfOk result (IsFigureVerdict figure.now) }
{
    match figure {
        Figure::Grid { job, lists, points } => grid_verdict(alloc, *job, lists, points),
        Figure::Bars { lists, bars } => bars_verdict(alloc, lists, bars),
        Figure::Rects { lists, rects } => rects_verdict(alloc, lists, rects),
        Figure::Witness { graph, witness } => Ok(witness_verdict(graph, witness)),
    }
}
