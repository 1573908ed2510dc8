//! Calls for C on visibility drawings of maps: drawn and judged, as bars and columns in arrays.
ghost use Rattle.std.specs.Prelude.{◌≡◌, ◌↔◌, length, IsTrue, IfOk, IfErr};
ghost use Rattle.conn_parts.specs.BiconnectedMaps.{IsBiconnectedMap, BreaksFirst};
ghost use Rattle.visibility.specs.Figures.{IsBarFigure};
ghost use Rattle.pigale_c.specs.Arrays.{lists_in};
ghost use Rattle.pigale_c.specs.BarArrays.{bars_in, AreBarsFor, IsGivenBars, AreJudgedBars, HasBarArrays, AreDrawnBars};
ghost use Rattle.pigale_c.specs.Failures.{Fails};
ghost use Rattle.pigale_c.specs.Numbers.{Reports, outcome_of};

use crate::map_arrays::{MapArrays, lists_of};
use crate::outcome::{Failure, Numbers, Outcome, report};
use bar_check::check_bars;
use half_edges::HalfMap;
use pg_plane::{BarFigure, Ints};
use std::alloc::{AllocError, Global};
use visibility::bar_figures::BarDrawer;

// The arrays of bars, as they are given: heights, left ends, right ends and columns.
#[derive(Clone, Copy)]
struct BarArrays<'a> {
    y: &'a [i32],
    x1: &'a [i32],
    x2: &'a [i32],
    column: &'a [i32],
}

impl BarArrays<'_> {
    // Copies the bars out of the arrays. It fails only when out of memory.
    fn figure(&self, alloc: Global) -> Result<BarFigure, AllocError>
        ensures { IfOk result (λ fig. fig ≡ bars_in self.now.y.now self.now.x1.now self.now.x2.now self.now.column.now) }
    {
        let y = Ints::from_vec(self.y.to_vec(alloc)?);
        let x1 = Ints::from_vec(self.x1.to_vec(alloc)?);
        let x2 = Ints::from_vec(self.x2.to_vec(alloc)?);
        let column = Ints::from_vec(self.column.to_vec(alloc)?);
        Ok(BarFigure { y, x1, x2, column })
    }

    // Says whether there is a bar for each of `n` vertices: all arrays but `column` have `n` entries.
    fn are_for(&self, n: usize) -> bool
        ensures { IsTrue result ↔ AreBarsFor n (bars_in self.now.y.now self.now.x1.now self.now.x2.now self.now.column.now) }
    {
        self.y.len() == n && self.x1.len() == n && self.x2.len() == n
    }
}

// Returns the verdict on `bars` as a drawing of the map `given` within `width`. `Err` says why there is none: arrays of
// a wrong length, no simple map, or no memory.
fn judged(given: &MapArrays<'_>, bars: &BarArrays<'_>, width: i32) -> Result<Outcome, Failure>
    ensures { AreJudgedBars given.now.ends.now given.now.neighbours.now (bars_in bars.now.y.now bars.now.x1.now bars.now.x2.now bars.now.column.now) width (outcome_of result) }
{
    if !bars.are_for(given.ends.len()) {
        return Err(Failure::BadArgument);
    }
    let lists = lists_of(given.alloc, given.ends, given.neighbours)?;
    let fig = bars.figure(given.alloc)?;
    let map = HalfMap::from_rotations(given.alloc, &lists)?;
    let verdict = check_bars(&map, &fig, width);
    Ok(Outcome::Bars(verdict))
}

/// Judges a visibility drawing of a map (`neighbours` cut into lists at `ends`) within the width from 0 to `width`.
/// Each vertex has a bar at height `y` from `x1` to `x2`, each edge a `column`. Returns the status of the verdict, and
/// writes the vertices that it names to `found`.
#[unsafe(no_mangle)]
pub extern "C" fn pigale_check_bars(
    alloc: Global,
    ends: &[usize],
    neighbours: &[u16],
    y: &[i32],
    x1: &[i32],
    x2: &[i32],
    column: &[i32],
    width: i32,
    found: &mut Numbers,
) -> u8
    ensures { Reports (AreJudgedBars ends.now neighbours.now (bars_in y.now x1.now x2.now column.now) width) result found.new }
{
    let given = MapArrays {
        alloc,
        ends,
        neighbours,
    };
    let bars = BarArrays { y, x1, x2, column };
    report(judged(&given, &bars, width), found)
}

// Draws the map `given` by bars, if the arrays `bars` have the lengths of its figure; nothing else of them is read.
// `Err` is `BadArgument`, the condition of a biconnected plane map that the map breaks, or `NoMemory`.
fn drawn(
    drawer: &mut BarDrawer,
    given: &MapArrays<'_>,
    bars: &BarArrays<'_>,
) -> Result<BarFigure, Failure>
    ensures shape { IfOk result (AreBarsFor (length given.now.ends.now)) }
    ensures columns { IfOk result (λ fig. length fig.column ≡ length bars.now.column.now) }
    ensures given { IfOk result (λ fig. HasBarArrays given.now.ends.now given.now.neighbours.now (bars_in bars.now.y.now bars.now.x1.now bars.now.x2.now bars.now.column.now)) }
    ensures served { IfOk result (λ fig. IsBiconnectedMap 3 (lists_in given.now.ends.now given.now.neighbours.now)) }
    ensures figure { IfOk result (IsBarFigure (lists_in given.now.ends.now given.now.neighbours.now)) }
    ensures failed { IfErr result (Fails (HasBarArrays given.now.ends.now given.now.neighbours.now (bars_in bars.now.y.now bars.now.x1.now bars.now.x2.now bars.now.column.now))
        (BreaksFirst 3 (lists_in given.now.ends.now given.now.neighbours.now))) }
{
    if !bars.are_for(given.ends.len()) {
        return Err(Failure::BadArgument);
    }
    let lists = lists_of(given.alloc, given.ends, given.neighbours)?;
    if bars.column.len() != lists.total() / 2 {
        return Err(Failure::BadArgument);
    }
    let figure = drawer.figure(&lists)?;
    Ok(figure)
}

/// Writes bars of the map `given`, which `drawer` draws, into `y`, `x1` and `x2`, and the columns of its edges into
/// `column`. Returns `Served`, or why there are none, and then leaves all four arrays as they were.
pub(crate) fn put_bars(
    drawer: &mut BarDrawer,
    given: &MapArrays<'_>,
    y: &mut [i32],
    x1: &mut [i32],
    x2: &mut [i32],
    column: &mut [i32],
) -> Result<Outcome, Failure>
    ensures { AreDrawnBars given.now.ends.now given.now.neighbours.now (bars_in y.old x1.old x2.old column.old) (bars_in y.new x1.new x2.new column.new) (outcome_of result) }
{
    let bars = BarArrays { y, x1, x2, column };
    let fig = drawn(drawer, given, &bars)?;
    y.copy_from_slice(fig.y.as_slice());
    x1.copy_from_slice(fig.x1.as_slice());
    x2.copy_from_slice(fig.x2.as_slice());
    column.copy_from_slice(fig.column.as_slice());
    Ok(Outcome::Served)
}

/// Draws a biconnected plane map (`neighbours` cut into lists at `ends`) by bars, in width f - 1 for f faces. Writes
/// each vertex's bar to `y`, `x1` and `x2`, and each edge's `column`. Returns a status, and writes what it names to
/// `found`.
#[unsafe(no_mangle)]
pub extern "C" fn pigale_bars(
    alloc: Global,
    ends: &[usize],
    neighbours: &[u16],
    y: &mut [i32],
    x1: &mut [i32],
    x2: &mut [i32],
    column: &mut [i32],
    found: &mut Numbers,
) -> u8
    ensures { Reports (AreDrawnBars ends.now neighbours.now (bars_in y.old x1.old x2.old column.old) (bars_in y.new x1.new x2.new column.new)) result found.new }
{
    let given = MapArrays {
        alloc,
        ends,
        neighbours,
    };
    let mut drawer = BarDrawer::new(alloc);
    report(put_bars(&mut drawer, &given, y, x1, x2, column), found)
}
