//! Schnyder's coordinates of all vertices, kept as differences (drops and rises) from others and added up at the end.
//!
//! For a vertex on the contour, its drop and its rise are how far coordinate one falls and coordinate two rises to it
//! from the one before it. A vertex that has left the contour is covered by a later one, w. Its rise is then how far it
//! is above w in coordinate two. Its drop is how far it is in coordinate one below where w's first neighbour was when w
//! was added. The span of w is how far w itself was below that. So a step changes only the entries of the new vertex,
//! of those that it covers and of the last one in its row.

ghost use Rattle.std.specs.Prelude.{◌≡◌, ◌≢◌, ◌<◌, ◌+◌, ◌^◌, ℕ, List, length, slice_index, All, AllPairs, IfOk};
ghost use Rattle.contour_runs.specs.Runs.{Step, Stage, after};
ghost use Rattle.contour_runs.specs.Wood.{Coordinates, coordinates_after, drawn_one, drawn_two};
ghost use Rattle.order_drawings.specs.Rows.{AreAllRows};
ghost use Rattle.grid_figures.specs.Gaps.{AreLastGaps, AreGaps, ArePassed, AreCovered, AreTables, IsPut, gap_sum};
ghost use Rattle.grid_figures.specs.Points.{ArePoints};

use half_edges::{Counts, Rotations};
use order_drawings::order_tables::points_at;
use pg_plane::Points;
use std::alloc::AllocError;

// Lets the new vertex `v` cover the distinct vertices of `row`, consecutive on the contour, and returns the sum of
// their drops (see the head of this file). At each of them `drops` becomes the sum of the drops up to it, plus 1,
// `rises` likewise, and `covers` becomes `v`. The tables go by vertex.
fn cover_interval(
    drops: &mut [u32],
    rises: &mut [u32],
    covers: &mut [u16],
    row: &[u16],
    v: u16,
) -> u32
    requires drops { All (λ u. u < length drops.old) row.now }
    requires rises { All (λ u. u < length rises.old) row.now }
    requires covers { All (λ u. u < length covers.old) row.now }
    requires distinct { AllPairs ◌≢◌ row.now }
    requires drops_room { gap_sum drops.old row.now + 1 < 2 ^ 32 }
    requires rises_room { gap_sum rises.old row.now + 1 < 2 ^ 32 }
    ensures far { result ≡ gap_sum drops.old row.now }
    ensures drops { ArePassed row.now (length row.now) drops.old drops.new }
    ensures rises { ArePassed row.now (length row.now) rises.old rises.new }
    ensures covered { AreCovered v row.now (length row.now) covers.old covers.new }
{
    let mut far = 0;
    let mut high = 0;
    for u in row {
        far += drops[*u as usize];
        drops[*u as usize] = far + 1;
        high += rises[*u as usize];
        rises[*u as usize] = high + 1;
        covers[*u as usize] = v;
    }
    far
}

// Adds the next vertex, `v`, over `row`, an interval of the contour: all of it but its first and last vertex go under
// `v`. Brings `drops`, `rises`, `spans` and `covers` (see this file's head; they go by vertex) from before this step to
// after it. They change at most at `v` and at all vertices of `row` but the first.
fn put_over(
    drops: &mut [u32],
    rises: &mut [u32],
    spans: &mut [u32],
    covers: &mut [u16],
    row: &[u16],
    v: u16,
)
    requires tables { AreTables (length drops.old) drops.old rises.old spans.old covers.old }
    requires within { v < length drops.old }
    requires put { (g : Stage) × (s : Step) × (at : Coordinates) × IsPut g s at row.now v × AreGaps g at drops.old rises.old spans.old covers.old }
    ensures { (g : Stage) (s : Step) (at : Coordinates) → IsPut g s at row.now v → AreGaps g at drops.old rises.old spans.old covers.old
        → AreGaps (after g s) (coordinates_after g s at) drops.new rises.new spans.new covers.new }
{
    let q = row[row.len() - 1];
    let span = cover_interval(drops, rises, covers, &row[1..], v);
    drops[v as usize] = span;
    rises[v as usize] = 0;
    spans[v as usize] = span;
    drops[q as usize] = 1;
}

// Replaces the differences in `drops` and `rises` by coordinates one and two, from the last vertex down. `covers` has
// for each vertex the later one that covers it, and `spans` the span of each (see the head of this file). The contour
// must have shrunk to the first two vertices and the last.
fn add_up(drops: &mut [u32], rises: &mut [u32], spans: &[u32], covers: &[u16])
    requires tables { AreTables (length drops.old) drops.old rises.old spans.now covers.now }
    requires last { (g : Stage) × (at : Coordinates) × AreLastGaps g at drops.old rises.old spans.now covers.now }
    ensures { (g : Stage) (at : Coordinates) → AreLastGaps g at drops.old rises.old spans.now covers.now
        → (v : ℕ) → v < g.count → (slice_index drops.new v ≡ drawn_one at v) × (slice_index rises.new v ≡ drawn_two at v) }
{
    let top = drops.len() - 1;
    drops[0] = (top - 1) as u32;
    drops[1] = 0;
    drops[top] = 1;
    rises[0] = 1;
    rises[1] = (top - 1) as u32;
    rises[top] = 0;
    for v in (2..top).rev() {
        let w = covers[v] as usize;
        drops[v] = drops[w] + spans[w] - drops[v];
        rises[v] += rises[w];
    }
}

/// Returns Schnyder's coordinates of all vertices, in the memory of `spent`. List k of `rows` is the contour interval
/// under the vertex of rank k + 2, as ranks; `ranks` has each vertex's rank. `drops`, `rises` and `spans`, zeros at
/// first, and `covers` have an entry for each vertex and are overwritten. It fails only when out of memory.
pub(crate) fn wood_points(
    spent: Points,
    drops: &mut [u32],
    rises: &mut [u32],
    spans: &mut [u32],
    covers: &mut [u16],
    rows: &Rotations,
    ranks: &Counts,
) -> Result<Points, AllocError>
    requires tables { AreTables (length ranks.now) drops.old rises.old spans.old covers.old }
    requires zeros { (u : ℕ) → (slice_index drops.old u ≡ 0) × (slice_index rises.old u ≡ 0) × (slice_index spans.old u ≡ 0) }
    requires rows { length rows.now + 2 ≡ length ranks.now }
    requires ranks { All (λ k. k < length ranks.now) ranks.now }
    requires run { (steps : ℕ → Step) × AreAllRows steps rows.now }
    ensures { IfOk result (λ points. (steps : ℕ → Step) → AreAllRows steps rows.now → ArePoints steps (length rows.now) ranks.now points) }
{
    drops[1] = 1;
    for k in 0..rows.len() {
        put_over(drops, rises, spans, covers, rows.list(k), (k + 2) as u16);
    }
    add_up(drops, rises, spans, covers);
    points_at(spent, drops, rises, ranks)
}
