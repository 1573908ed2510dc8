//! Calls for C that draw maps with straight edges: by the shift method, by Schnyder's, and convex.
ghost use Rattle.std.specs.Prelude.{◌≡◌, ◌<◌, length, IfOk, IfErr};
ghost use Rattle.pigale_c.specs.Arrays.{lists_in};
ghost use Rattle.pigale_c.specs.Drawn.{IsGivenGrid, IsShiftDrawn, IsSchnyderDrawn, IsConvexDrawn};
ghost use Rattle.pigale_c.specs.Failures.{IsBadOnly};
ghost use Rattle.pigale_c.specs.Numbers.{Reports};

use crate::map_arrays::{MapArrays, lists_of, put_points};
use crate::outcome::{Failure, Numbers, Outcome, report};
use convex_draw::convex_figures::ConvexDrawer;
use grid_figures::Drawer;
use map_lists::Rotations;
use std::alloc::Global;

// Reads the rotation lists of the map `given`, if `x` and `y` have one entry for each vertex. Otherwise it returns
// `BadArgument`, as for arrays that are no map, or `NoMemory`.
fn lists_for_points(given: &MapArrays<'_>, x: &[i32], y: &[i32]) -> Result<Rotations, Failure>
    ensures lists { IfOk result (λ lists. lists ≡ lists_in given.now.ends.now given.now.neighbours.now) }
    ensures given { IfOk result (λ lists. IsGivenGrid given.now.ends.now given.now.neighbours.now x.now y.now) }
    ensures count { IfOk result (λ lists. length lists ≡ length given.now.ends.now) }
    ensures some_list { IfOk result (λ lists. 0 < length lists) }
    ensures failed { IfErr result (IsBadOnly (IsGivenGrid given.now.ends.now given.now.neighbours.now x.now y.now)) }
{
    if x.len() != given.ends.len() || y.len() != given.ends.len() {
        return Err(Failure::BadArgument);
    }
    let lists = lists_of(given.alloc, given.ends, given.neighbours)?;
    Ok(lists)
}

/// Draws one map after another into arrays, and keeps its memory for the next. No answer depends on what it holds.
pub(crate) trait GridDrawer {
    ghost use Rattle.std.specs.Prelude.{ℕ, ℤ, List};
    ghost use Rattle.pigale_c.specs.declared.outcome.Outcome.{Outcome};
    ghost use Rattle.pigale_c.specs.Numbers.{outcome_of};

    // what is promised of the arrays of a map, and of two rows of coordinates before and after
    ghost draws: { List ℕ → List ℕ → List ℤ → List ℤ → List ℤ → List ℤ → Outcome → Type 0 };

    /// Writes the drawing of the map `given` into `x` and `y`. Returns `Served`, or why there is none, and then leaves
    /// both arrays as they were.
    fn draw(
        &mut self,
        given: &MapArrays<'_>,
        x: &mut [i32],
        y: &mut [i32],
    ) -> Result<Outcome, Failure>
        ensures { draws given.now.ends.now given.now.neighbours.now x.old y.old x.new y.new (outcome_of result) };
}

/// Draws maps by the shift method.
#[derive(Drop)]
pub(crate) struct ShiftGrids {
    drawer: Drawer,
}

impl ShiftGrids {
    /// Returns a drawer that has drawn nothing yet. It takes no memory.
    pub(crate) fn new(alloc: Global) -> ShiftGrids {
        ShiftGrids {
            drawer: Drawer::new(alloc),
        }
    }
}

impl GridDrawer for ShiftGrids {
    ghost use Rattle.pigale_c.specs.Drawn.{IsShiftDrawn};

    ghost draws = { IsShiftDrawn };

    // Draws the map `given`, as the trait says.
    fn draw(
        &mut self,
        given: &MapArrays<'_>,
        x: &mut [i32],
        y: &mut [i32],
    ) -> Result<Outcome, Failure> {
        let lists = lists_for_points(given, x, y)?;
        let figure = self.drawer.shift_figure(&lists)?;
        put_points(figure.points.as_slice(), x, y);
        self.drawer.keep_shift(figure);
        Ok(Outcome::Served)
    }
}

/// Draws maps by Schnyder's method.
#[derive(Drop)]
pub(crate) struct SchnyderGrids {
    drawer: Drawer,
}

impl SchnyderGrids {
    /// Returns a drawer that has drawn nothing yet. It takes no memory.
    pub(crate) fn new(alloc: Global) -> SchnyderGrids {
        SchnyderGrids {
            drawer: Drawer::new(alloc),
        }
    }
}

impl GridDrawer for SchnyderGrids {
    ghost use Rattle.pigale_c.specs.Drawn.{IsSchnyderDrawn};

    ghost draws = { IsSchnyderDrawn };

    // Draws the map `given`, as the trait says.
    fn draw(
        &mut self,
        given: &MapArrays<'_>,
        x: &mut [i32],
        y: &mut [i32],
    ) -> Result<Outcome, Failure> {
        let lists = lists_for_points(given, x, y)?;
        let figure = self.drawer.schnyder_figure(&lists)?;
        put_points(figure.points.as_slice(), x, y);
        self.drawer.keep_schnyder(figure);
        Ok(Outcome::Served)
    }
}

/// Draws maps with convex faces.
#[derive(Drop)]
pub(crate) struct ConvexGrids {
    drawer: ConvexDrawer,
}

impl ConvexGrids {
    /// Returns a drawer that has drawn nothing yet. It takes no memory.
    pub(crate) fn new(alloc: Global) -> ConvexGrids {
        ConvexGrids {
            drawer: ConvexDrawer::new(alloc),
        }
    }
}

impl GridDrawer for ConvexGrids {
    ghost use Rattle.pigale_c.specs.Drawn.{IsConvexDrawn};

    ghost draws = { IsConvexDrawn };

    // Draws the map `given`, as the trait says.
    fn draw(
        &mut self,
        given: &MapArrays<'_>,
        x: &mut [i32],
        y: &mut [i32],
    ) -> Result<Outcome, Failure> {
        let lists = lists_for_points(given, x, y)?;
        let figure = self.drawer.figure(&lists)?;
        put_points(figure.points.as_slice(), x, y);
        Ok(Outcome::Served)
    }
}

/// Draws a plane map (`neighbours` cut into lists at `ends`) by the shift method, in the grid 2n - 4 by n - 2. Writes
/// the point of each vertex to `x` and `y`. Returns a status, and writes the vertices or count it names to `found`.
#[unsafe(no_mangle)]
pub extern "C" fn pigale_shift(
    alloc: Global,
    ends: &[usize],
    neighbours: &[u16],
    x: &mut [i32],
    y: &mut [i32],
    found: &mut Numbers,
) -> u8
    ensures { Reports (IsShiftDrawn ends.now neighbours.now x.old y.old x.new y.new) result found.new }
{
    let given = MapArrays {
        alloc,
        ends,
        neighbours,
    };
    report(ShiftGrids::new(alloc).draw(&given, x, y), found)
}

/// Draws a plane map (`neighbours` cut into lists at `ends`) by Schnyder's method, in the grid n - 2 by n - 2. Writes
/// the point of each vertex to `x` and `y`. Returns a status, and writes the vertices or count it names to `found`.
#[unsafe(no_mangle)]
pub extern "C" fn pigale_schnyder(
    alloc: Global,
    ends: &[usize],
    neighbours: &[u16],
    x: &mut [i32],
    y: &mut [i32],
    found: &mut Numbers,
) -> u8
    ensures { Reports (IsSchnyderDrawn ends.now neighbours.now x.old y.old x.new y.new) result found.new }
{
    let given = MapArrays {
        alloc,
        ends,
        neighbours,
    };
    report(SchnyderGrids::new(alloc).draw(&given, x, y), found)
}

/// Draws a three-connected plane map (`neighbours` cut into lists at `ends`) convex in the grid f - 1 by f - 1. Writes
/// the point of each vertex to `x` and `y`. Returns a status, and writes the vertices or count it names to `found`.
#[unsafe(no_mangle)]
pub extern "C" fn pigale_convex(
    alloc: Global,
    ends: &[usize],
    neighbours: &[u16],
    x: &mut [i32],
    y: &mut [i32],
    found: &mut Numbers,
) -> u8
    ensures { Reports (IsConvexDrawn ends.now neighbours.now x.old y.old x.new y.new) result found.new }
{
    let given = MapArrays {
        alloc,
        ends,
        neighbours,
    };
    report(ConvexGrids::new(alloc).draw(&given, x, y), found)
}
