//! The public calls that find the points of a construction sequence.
ghost use Rattle.std.specs.Prelude.{◌≡◌, ◌<◌, ◌+◌, ℕ, length, pos, IfOk};
ghost use Rattle.contour_runs.specs.FaceRuns.{Step};
ghost use Rattle.convex_counts.specs.Counts.{face_counts};
ghost use Rattle.convex_counts.specs.Turns.{well_turned};
ghost use Rattle.convex_draw.specs.Spots.{spot_of};
ghost use Rattle.convex_draw.specs.Points.{IsListedRun, ArePointsOf, ArePlaced};

use crate::convex_points::face_run::FaceRun;
use crate::convex_points::spots::Spot;
use crate::convex_points::summed_differences::find_counts;
use pg_plane::{Point, Points};
use std::alloc::{AllocError, Global};

/// Converts `number`, below 2^20, to a coordinate.
pub(crate) fn coordinate(number: u32) -> i32
    requires { number < 1048576 }
    ensures { result ≡ pos number }
{
    number as i32
}

// Returns a point for each vertex: the coordinates one and two of its entry in `spots`, each below 2^20.
fn points_of(alloc: Global, spots: &[Spot]) -> Result<Points, AllocError>
    requires small { (u : ℕ) → u < length spots.now → ((spot_of spots.now u).one < 1048576) × ((spot_of spots.now u).two < 1048576) }
    ensures { IfOk result (λ points. ArePlaced spots.now (length spots.now) points) }
{
    let mut points = Points::with_capacity(alloc, spots.len())?;
    for v in 0..spots.len() {
        points.push(Point {
            x: coordinate(spots[v].one),
            y: coordinate(spots[v].two),
        })?;
    }
    Ok(points)
}

// Returns the points of the sequence `run`. `spots` has an entry for each vertex, which may hold anything before.
fn run_points(alloc: Global, spots: &mut [Spot], run: &FaceRun<'_>) -> Result<Points, AllocError>
    requires small { length spots.old < 65536 }
    requires run { (steps : ℕ → Step) × (at : ℕ → ℕ) × IsListedRun steps at run.now.rows.now run.now.d.0 run.now.s.0 (length spots.old) run.now.faces }
    ensures { IfOk result (λ points. (steps : ℕ → Step) (at : ℕ → ℕ) → IsListedRun steps at run.now.rows.now run.now.d.0 run.now.s.0 (length spots.old) run.now.faces
        → ArePointsOf (face_counts (well_turned steps) (length run.now.rows.now.rows)) at (length spots.old) points) }
{
    find_counts(spots, run);
    points_of(alloc, spots)
}

/// Keeps each vertex's spot (relative position) while points are found. From run to run it holds memory alone.
#[derive(Drop)]
pub struct SpotTable {
    spots: Vec<Spot>,
}

impl SpotTable {
    /// Returns a table of no run. It takes no memory.
    pub fn new(alloc: Global) -> SpotTable {
        SpotTable {
            spots: Vec::new(alloc),
        }
    }
}

/// Like [`count_points`], but in the memory of the table `spent`, which is returned too.
pub fn count_points_again(
    alloc: Global,
    spent: SpotTable,
    run: &FaceRun<'_>,
) -> Result<(Points, SpotTable), AllocError>
    requires run { (steps : ℕ → Step) × (at : ℕ → ℕ) × IsListedRun steps at run.now.rows.now run.now.d.0 run.now.s.0 run.now.count run.now.faces }
    ensures { IfOk result (λ made. (steps : ℕ → Step) (at : ℕ → ℕ) → IsListedRun steps at run.now.rows.now run.now.d.0 run.now.s.0 run.now.count run.now.faces
        → ArePointsOf (face_counts (well_turned steps) (length run.now.rows.now.rows)) at run.now.count made.0) }
{
    let mut spots = spent.spots;
    let none = Spot {
        one: 0,
        two: 0,
        over: 0,
    };
    spots.resize(run.count as usize, none)?;
    let points = run_points(alloc, &mut spots, run)?;
    Ok((points, SpotTable { spots }))
}

/// Returns the points of the vertices of `run` by counts of faces over it. A face's turn, where the contour edges under
/// it stop going left, is read off the counts.
///
/// It fails only when out of memory. The time is linear in the entries of the rows. A step writes how far each vertex
/// that it covers stands from one that stays, and these differences are added up in the end.
///
/// Source: Felsner, Convex drawings of planar graphs and the order dimension of 3-polytopes, 2001.
pub fn count_points(alloc: Global, run: &FaceRun<'_>) -> Result<Points, AllocError>
    requires run { (steps : ℕ → Step) × (at : ℕ → ℕ) × IsListedRun steps at run.now.rows.now run.now.d.0 run.now.s.0 run.now.count run.now.faces }
    ensures { IfOk result (λ points. (steps : ℕ → Step) (at : ℕ → ℕ) → IsListedRun steps at run.now.rows.now run.now.d.0 run.now.s.0 run.now.count run.now.faces
        → ArePointsOf (face_counts (well_turned steps) (length run.now.rows.now.rows)) at run.now.count points) }
{
    let (points, _spots) = count_points_again(alloc, SpotTable::new(alloc), run)?;
    Ok(points)
}
