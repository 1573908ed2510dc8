//! Adds up the differences that spots keep, along the last contour and then from the last step down to the first.
ghost use Rattle.std.specs.Prelude.{◌≡◌, ◌<◌, ◌≤◌, ◌+◌, ◌-◌, ℕ, List, length, slice_index, All, AllPairs, ◌≢◌};
ghost use Rattle.contour_runs.specs.Runs.{Stage};
ghost use Rattle.contour_runs.specs.Wood.{Coordinates};
ghost use Rattle.contour_runs.specs.FaceRuns.{Step, stage_after, faces_made};
ghost use Rattle.convex_counts.specs.Counts.{face_counts};
ghost use Rattle.convex_draw.specs.Spots.{spot_of};
ghost use Rattle.convex_draw.specs.Sums.{IsLast, AreWalked, IsFree, AreAdded, AreDone};
ghost use Rattle.convex_draw.specs.Runs.{IsCountRun};

use crate::convex_points::face_run::FaceRun;
use crate::convex_points::spots::{Spot, put_all};
use convex_laws::convex_rows::ConvexRows;

// Replaces the differences in `spots` by coordinates along the last contour, of `width` vertices. It goes from vertex
// `s`, at (0, `faces`), to the vertex that each entry refers to.
fn walk(spots: &mut [Spot], s: u16, faces: u32, width: usize)
    requires last { (g : Stage) × (at : Coordinates) × (name : ℕ → ℕ) × IsLast g at name spots.old s faces width }
    ensures { (g : Stage) (at : Coordinates) (name : ℕ → ℕ) → IsLast g at name spots.old s faces width → AreWalked g at name 0 spots.old spots.new }
{
    let mut x = 0;
    let mut y = faces;
    let mut u = s;
    for _ in 1..width {
        let old = spots[u as usize];
        spots[u as usize] = Spot {
            one: x,
            two: y,
            over: old.over,
        };
        x += old.one;
        y -= old.two;
        u = old.over;
    }
    spots[u as usize] = Spot {
        one: x,
        two: y,
        over: u,
    };
}

// Replaces the differences in `spots` by coordinates, for each vertex strictly within the contour interval `row`. It
// adds the known coordinates of the vertex to which they refer.
fn add_row(spots: &mut [Spot], row: &[u16])
    requires free { IsFree row.now spots.old }
    ensures { AreAdded row.now (length row.now - 1) spots.old spots.new }
{
    for j in 1..row.len() - 1 {
        let u = row[j] as usize;
        let old = spots[u];
        let over = spots[old.over as usize];
        spots[u] = Spot {
            one: old.one + over.one,
            two: old.two + over.two,
            over: old.over,
        };
    }
}

// Replaces differences in `spots` by coordinates, from the last step to the first; those of the last contour are known.
fn add_all(spots: &mut [Spot], rows: &ConvexRows)
    requires run { (steps : ℕ → Step) × (name : ℕ → ℕ) × IsCountRun steps name rows.now (length spots.old) × AreDone steps name (length rows.now.rows) (length rows.now.rows) spots.old }
    ensures { (steps : ℕ → Step) (name : ℕ → ℕ) → IsCountRun steps name rows.now (length spots.old) → AreDone steps name (length rows.now.rows) (length rows.now.rows) spots.old → AreDone steps name (length rows.now.rows) 0 spots.new }
{
    for j in 0..rows.rows.len() {
        add_row(spots, rows.rows.list(j));
    }
}

/// Fills `spots`, one entry for each vertex, with the coordinates by `run`: the counts of faces along axes one and two.
pub(crate) fn find_counts(spots: &mut [Spot], run: &FaceRun<'_>)
    requires run { (steps : ℕ → Step) × (name : ℕ → ℕ) × IsCountRun steps name run.now.rows.now (length spots.old) × (name 0 ≡ run.now.d.0) × (name 1 ≡ run.now.s.0) × (faces_made steps (length run.now.rows.now.rows) ≡ run.now.faces) }
    ensures { (steps : ℕ → Step) (name : ℕ → ℕ) → IsCountRun steps name run.now.rows.now (length spots.old) → name 0 ≡ run.now.d.0 → name 1 ≡ run.now.s.0 → faces_made steps (length run.now.rows.now.rows) ≡ run.now.faces
        → (r : ℕ) → r < length spots.old → ((spot_of spots.new (name r)).one ≡ (face_counts steps (length run.now.rows.now.rows)).one r) × ((spot_of spots.new (name r)).two ≡ (face_counts steps (length run.now.rows.now.rows)).two r) }
{
    let width = put_all(spots, run.rows, run.d.0, run.s.0);
    walk(spots, run.s.0, run.faces, width);
    add_all(spots, run.rows);
}
