//! The four sides of all boxes of a rectangular dual, by ranks: `BoxTables`.
ghost use Rattle.std.specs.Prelude.{◌≡◌, ◌<◌, ◌≤◌, ◌+◌, ℕ, List, length, slice_index, IfOk};
ghost use Rattle.contour_runs.specs.Runs.{Step};
ghost use Rattle.rect_runs.specs.Labels.{IsLabelledRun};
ghost use Rattle.rect_runs.specs.Numbers.{run_turns};
ghost use Rattle.rect_runs.specs.Boxes.{boxes};
ghost use Rattle.order_drawings.specs.Rows.{AreRows};
ghost use Rattle.rect_dual.specs.Turns.{AreTurns};
ghost use Rattle.rect_dual.specs.Sides.{AreTurnPlaces, AreSides};
ghost use Rattle.rect_dual.specs.RectDrawTables.{AreBoxTables};

use crate::rect_sides::fill_sides;
use crate::rect_turns::{TurnedRows, row_turns};
use crate::side_lines::{RowNumbers, row_numbers};
use map_lists::Rotations;
use std::alloc::{AllocError, Global};

// The sides of the boxes, by the ranks of their vertices.
#[derive(Drop)]
pub(crate) struct BoxTables {
    pub left: Vec<u32>,
    pub right: Vec<u32>,
    pub low: Vec<u32>,
    pub high: Vec<u32>,
}

// The right and the upper sides of boxes, by rank.
#[derive(Drop)]
struct Sides {
    right: Vec<u32>,
    high: Vec<u32>,
}

// The width of the grid of the boxes, and the height at which the last box begins.
#[derive(Clone, Copy)]
struct Grid {
    width: u32,
    ceiling: u32,
}

// Returns how many entries of `runs` are true: the rows whose turn is at a horizontal edge.
fn run_count(runs: &[bool]) -> u32
    requires few { length runs.now < 4096 }
    ensures count { (steps : ℕ → Step) (places : List ℕ) → AreTurns steps (length runs.now) places runs.now → result ≡ run_turns steps (length runs.now) }
    ensures bound { result ≤ length runs.now }
{
    let mut count = 0;
    for k in 0..runs.len() {
        count += u32::from(runs[k]);
    }
    count
}

// Returns the right and the upper sides of all boxes but the last, by rank, from `numbers`, the left and lower ones.
// Sides that no later box bounds are at the ends of `grid`. It fails only when out of memory.
fn lower_sides(
    alloc: Global,
    turned: &TurnedRows<'_>,
    numbers: &RowNumbers,
    grid: Grid,
) -> Result<Sides, AllocError>
    requires xs { length numbers.now.x.items ≡ length turned.now.rows.now + 2 }
    requires ys { length numbers.now.y.items ≡ length turned.now.rows.now + 2 }
    ensures right { IfOk result (λ sides. length sides.right.items ≡ length turned.now.rows.now + 2) }
    ensures high { IfOk result (λ sides. length sides.high.items ≡ length turned.now.rows.now + 2) }
    ensures sides { IfOk result (λ sides. (steps : ℕ → Step) → AreRows steps turned.now.rows.now → AreTurnPlaces steps (length turned.now.rows.now) turned.now.places.now
        → AreSides steps (length turned.now.rows.now) (length turned.now.rows.now + 2) (slice_index numbers.now.x.items) (slice_index numbers.now.y.items) grid.width grid.ceiling sides.right.items sides.high.items) }
{
    let mut right = vec![in alloc; grid.width; turned.rows.len() + 2]?;
    let mut high = vec![in alloc; grid.ceiling; turned.rows.len() + 2]?;
    fill_sides(&mut right, &mut high, turned, numbers);
    Ok(Sides { right, high })
}

// Returns the boxes by rank: two of the base, one over each of `rows` (contour intervals), and one over all others.
pub(crate) fn box_tables(alloc: Global, rows: &Rotations) -> Result<BoxTables, AllocError>
    requires run { (steps : ℕ → Step) × AreRows steps rows.now }
    ensures left { IfOk result (λ tables. length tables.left.items ≡ length rows.now + 3) }
    ensures right { IfOk result (λ tables. length tables.right.items ≡ length rows.now + 3) }
    ensures low { IfOk result (λ tables. length tables.low.items ≡ length rows.now + 3) }
    ensures high { IfOk result (λ tables. length tables.high.items ≡ length rows.now + 3) }
    ensures boxes { IfOk result (λ tables. (steps : ℕ → Step) → AreRows steps rows.now → IsLabelledRun steps (length rows.now)
        → AreBoxTables (boxes steps (length rows.now)) (length rows.now + 3) tables.left.items tables.right.items tables.low.items tables.high.items) }
{
    let count = rows.len();
    let turns = row_turns(alloc, rows)?;
    let turned = TurnedRows {
        rows,
        places: &turns.place,
        runs: &turns.run,
    };
    let numbers = row_numbers(alloc, &turned)?;
    let runs = run_count(turned.runs);
    let grid = Grid {
        width: count as u32 + 1 - runs,
        ceiling: runs + 2,
    };
    let sides = lower_sides(alloc, &turned, &numbers, grid)?;
    let mut left = numbers.x;
    let mut right = sides.right;
    let mut low = numbers.y;
    let mut high = sides.high;
    // The last box lies over all others.
    left.push(0)?;
    right.push(grid.width)?;
    low.push(grid.ceiling)?;
    high.push(grid.ceiling + 1)?;
    Ok(BoxTables {
        left,
        right,
        low,
        high,
    })
}
