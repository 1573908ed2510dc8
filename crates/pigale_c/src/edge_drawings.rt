//! The call for C that judges a straight-line drawing of edges, of which no rotations are known.
ghost use Rattle.std.specs.Prelude.{◌≡◌, ◌<◌, ◌↔◌, length, None, IsTrue, IfOk, IfErr};
ghost use Rattle.simple_maps.specs.Faults.{first_fault};
ghost use Rattle.pigale_c.specs.EdgeDrawings.{BreaksAsMap, IsJudgedEdges};
ghost use Rattle.pigale_c.specs.EdgeFailures.{FailsOnEdges};
ghost use Rattle.pigale_c.specs.EdgeLists.{IsEdgeLists};
ghost use Rattle.pigale_c.specs.Numbers.{Reports, outcome_of};

use crate::edge_faults::first_improper;
use crate::edge_lists::lists_of_edges;
use crate::edges::{EdgeEnds, rising_edges};
use crate::map_arrays::points_of;
use crate::outcome::{Failure, Numbers, Outcome, report};
use draw_check::check_plane;
use half_edges::HalfMap;
use map_lists::MOST_VERTICES;
use std::alloc::Global;

// Returns the fault of `edges`, between `n` vertices, by their numbers, or `failure`, if they have none.
fn named(alloc: Global, n: u16, edges: &[EdgeEnds], failure: Failure) -> Failure
    requires few { n < 4096 }
    requires size { length edges.now < 16777216 }
    requires failed { FailsOnEdges (Unit {0}) n edges.now (BreaksAsMap n edges.now) failure }
    ensures { FailsOnEdges (Unit {0}) n edges.now (BreaksAsMap n edges.now) result }
{
    match rising_edges(alloc, n, edges) {
        Ok(_) => failure,
        Err(fault) => fault,
    }
}

// Returns a map of `n` vertices with these `edges`, round each vertex in rising order. `Err` says why there is none.
fn map_of_edges(alloc: Global, n: u16, edges: &[EdgeEnds]) -> Result<HalfMap, Failure>
    requires some { 0 < n }
    requires few { n < 4096 }
    requires size { length edges.now < 16777216 }
    ensures map { IfOk result (λ map. IsEdgeLists n edges.now map.lists) }
    ensures simple { IfOk result (λ map. first_fault map.lists ≡ None) }
    ensures failed { IfErr result (FailsOnEdges (Unit {0}) n edges.now (BreaksAsMap n edges.now)) }
{
    if let Some(fault) = first_improper(n, edges) {
        return Err(Failure::BadEdge(fault));
    }
    let lists = lists_of_edges(alloc, n, edges)?;
    match HalfMap::from_rotations(alloc, &lists) {
        Ok(map) => Ok(map),
        Err(fault) => Err(named(alloc, n, edges, Failure::from(fault))),
    }
}

// Says whether there are from 1 to 4095 vertices, `n`, and fewer than 2^24 `edges`.
fn are_few(n: usize, edges: &[EdgeEnds]) -> bool
    ensures { IsTrue result ↔ ((0 < n) × (n < 4096) × (length edges.now < 16777216)) }
{
    0 < n && n <= usize::from(MOST_VERTICES) && edges.len() < 16_777_216
}

// Returns the verdict on `edges`, drawn straight with vertex v at (`x[v]`, `y[v]`). `Err` says why there is none.
fn judged(alloc: Global, edges: &[EdgeEnds], x: &[i32], y: &[i32]) -> Result<Outcome, Failure>
    ensures { IsJudgedEdges edges.now x.now y.now (outcome_of result) }
{
    let n = x.len();
    if !are_few(n, edges) {
        return Err(Failure::BadArgument);
    }
    let points = points_of(alloc, n, x, y)?;
    let map = map_of_edges(alloc, n as u16, edges)?;
    let verdict = check_plane(&map, &points);
    Ok(Outcome::Drawing(verdict))
}

/// Judges a straight-line drawing of `edges`, in any order and either way round, with vertex v at (`x[v]`, `y[v]`).
/// Returns the status of the first fault, and writes the vertices or edges that it names to `found`.
#[unsafe(no_mangle)]
pub extern "C" fn pigale_check_drawing(
    alloc: Global,
    edges: &[EdgeEnds],
    x: &[i32],
    y: &[i32],
    found: &mut Numbers,
) -> u8
    ensures { Reports (IsJudgedEdges edges.now x.now y.now) result found.new }
{
    report(judged(alloc, edges, x, y), found)
}
