//! Calls for C on rectangular duals of maps: drawn and judged, as rectangles in arrays.
ghost use Rattle.std.specs.Prelude.{◌≡◌, ◌↔◌, length, IsTrue, IfOk, IfErr};
ghost use Rattle.rect_class.specs.RectMaps.{IsRectMap};
ghost use Rattle.rect_class.specs.Refusals.{BreaksRect};
ghost use Rattle.rect_dual.specs.Figures.{IsRectFigure};
ghost use Rattle.pigale_c.specs.Arrays.{lists_in};
ghost use Rattle.pigale_c.specs.RectArrays.{rects_in, AreRectsFor, IsGivenRects, AreJudgedRects, AreDrawnRects};
ghost use Rattle.pigale_c.specs.Failures.{Fails};
ghost use Rattle.pigale_c.specs.Numbers.{Reports, outcome_of};

use crate::map_arrays::{MapArrays, lists_of};
use crate::outcome::{Failure, Numbers, Outcome, report};
use half_edges::HalfMap;
use pg_plane::{Ints, RectFigure};
use rect_check::check_rects;
use rect_dual::figures::RectDrawer;
use std::alloc::{AllocError, Global};

// The arrays of rectangles, as they are given: left, right, lower and upper sides.
#[derive(Clone, Copy)]
struct RectArrays<'a> {
    x1: &'a [i32],
    x2: &'a [i32],
    y1: &'a [i32],
    y2: &'a [i32],
}

impl RectArrays<'_> {
    // Copies the rectangles out of the arrays. It fails only when out of memory.
    fn figure(&self, alloc: Global) -> Result<RectFigure, AllocError>
        ensures { IfOk result (λ fig. fig ≡ rects_in self.now.x1.now self.now.x2.now self.now.y1.now self.now.y2.now) }
    {
        let x1 = Ints::from_vec(self.x1.to_vec(alloc)?);
        let x2 = Ints::from_vec(self.x2.to_vec(alloc)?);
        let y1 = Ints::from_vec(self.y1.to_vec(alloc)?);
        let y2 = Ints::from_vec(self.y2.to_vec(alloc)?);
        Ok(RectFigure { x1, x2, y1, y2 })
    }

    // Says whether there is a rectangle for each of `n` vertices: all four arrays have `n` entries.
    fn are_for(&self, n: usize) -> bool
        ensures { IsTrue result ↔ AreRectsFor n (rects_in self.now.x1.now self.now.x2.now self.now.y1.now self.now.y2.now) }
    {
        self.x1.len() == n && self.x2.len() == n && self.y1.len() == n && self.y2.len() == n
    }
}

// Returns the verdict on `rects` as a rectangular dual of the map `given`. `Err` says why there is none: arrays of a
// wrong length, no simple map, or no memory.
fn judged(given: &MapArrays<'_>, rects: &RectArrays<'_>) -> Result<Outcome, Failure>
    ensures { AreJudgedRects given.now.ends.now given.now.neighbours.now (rects_in rects.now.x1.now rects.now.x2.now rects.now.y1.now rects.now.y2.now) (outcome_of result) }
{
    if !rects.are_for(given.ends.len()) {
        return Err(Failure::BadArgument);
    }
    let lists = lists_of(given.alloc, given.ends, given.neighbours)?;
    let fig = rects.figure(given.alloc)?;
    let map = HalfMap::from_rotations(given.alloc, &lists)?;
    let verdict = check_rects(&map, &fig);
    Ok(Outcome::Rects(verdict))
}

/// Judges a rectangular dual of a map (`neighbours` cut into lists at `ends`), with a rectangle `x1` to `x2`, `y1` to
/// `y2` for each vertex. Returns the verdict's status, and writes the vertices that it names to `found`.
#[unsafe(no_mangle)]
pub extern "C" fn pigale_check_rects(
    alloc: Global,
    ends: &[usize],
    neighbours: &[u16],
    x1: &[i32],
    x2: &[i32],
    y1: &[i32],
    y2: &[i32],
    found: &mut Numbers,
) -> u8
    ensures { Reports (AreJudgedRects ends.now neighbours.now (rects_in x1.now x2.now y1.now y2.now)) result found.new }
{
    let given = MapArrays {
        alloc,
        ends,
        neighbours,
    };
    let rects = RectArrays { x1, x2, y1, y2 };
    report(judged(&given, &rects), found)
}

// Draws the map `given` as a rectangular dual, if the arrays `rects` have one entry for each vertex; no entry is read.
// `Err` is `BadArgument`, the first condition of the job `rect` that the map breaks, or `NoMemory`.
fn drawn(
    drawer: &mut RectDrawer,
    given: &MapArrays<'_>,
    rects: &RectArrays<'_>,
) -> Result<RectFigure, Failure>
    ensures shape { IfOk result (AreRectsFor (length given.now.ends.now)) }
    ensures given { IfOk result (λ fig. IsGivenRects given.now.ends.now given.now.neighbours.now (rects_in rects.now.x1.now rects.now.x2.now rects.now.y1.now rects.now.y2.now)) }
    ensures served { IfOk result (λ fig. IsRectMap (lists_in given.now.ends.now given.now.neighbours.now)) }
    ensures figure { IfOk result (IsRectFigure (lists_in given.now.ends.now given.now.neighbours.now)) }
    ensures failed { IfErr result (Fails (IsGivenRects given.now.ends.now given.now.neighbours.now (rects_in rects.now.x1.now rects.now.x2.now rects.now.y1.now rects.now.y2.now))
        (BreaksRect (lists_in given.now.ends.now given.now.neighbours.now))) }
{
    if !rects.are_for(given.ends.len()) {
        return Err(Failure::BadArgument);
    }
    let lists = lists_of(given.alloc, given.ends, given.neighbours)?;
    match drawer.figure(&lists) {
        Ok(figure) => Ok(figure),
        Err(unserved) => Err(Failure::from(unserved)),
    }
}

/// Writes rectangles of the map `given`, which `drawer` draws, into `x1`, `x2`, `y1` and `y2`. Returns `Served`, or why
/// there are none, and then leaves all four arrays as they were.
pub(crate) fn put_rects(
    drawer: &mut RectDrawer,
    given: &MapArrays<'_>,
    x1: &mut [i32],
    x2: &mut [i32],
    y1: &mut [i32],
    y2: &mut [i32],
) -> Result<Outcome, Failure>
    ensures { AreDrawnRects given.now.ends.now given.now.neighbours.now (rects_in x1.old x2.old y1.old y2.old) (rects_in x1.new x2.new y1.new y2.new) (outcome_of result) }
{
    let rects = RectArrays { x1, x2, y1, y2 };
    let fig = drawn(drawer, given, &rects)?;
    x1.copy_from_slice(fig.x1.as_slice());
    x2.copy_from_slice(fig.x2.as_slice());
    y1.copy_from_slice(fig.y1.as_slice());
    y2.copy_from_slice(fig.y2.as_slice());
    Ok(Outcome::Served)
}

/// Draws a map (`neighbours` cut into lists at `ends`) of triangles in a quadrangle as a rectangular dual within n - 2
/// by n - 2. Each of `x1` to `y2` gets an entry for each vertex. Returns a status, and writes what it names to `found`.
#[unsafe(no_mangle)]
pub extern "C" fn pigale_rect(
    alloc: Global,
    ends: &[usize],
    neighbours: &[u16],
    x1: &mut [i32],
    x2: &mut [i32],
    y1: &mut [i32],
    y2: &mut [i32],
    found: &mut Numbers,
) -> u8
    ensures { Reports (AreDrawnRects ends.now neighbours.now (rects_in x1.old x2.old y1.old y2.old) (rects_in x1.new x2.new y1.new y2.new)) result found.new }
{
    let given = MapArrays {
        alloc,
        ends,
        neighbours,
    };
    let mut drawer = RectDrawer::new(alloc);
    report(put_rects(&mut drawer, &given, x1, x2, y1, y2), found)
}
