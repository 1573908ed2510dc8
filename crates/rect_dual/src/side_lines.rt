//! Left or lower sides of all boxes, numbered by lines that are inserted into a linked list as vertices are put on.

ghost use Rattle.std.specs.Prelude.{◌≡◌, ◌≢◌, ◌⊎◌, ◌<◌, ◌≤◌, ◌+◌, ℕ, suc, true, false, length, slice_index, vec_len, All, IfOk};
ghost use Rattle.contour_runs.specs.Runs.{Step};
ghost use Rattle.rect_runs.specs.Labels.{IsLabelledRun};
ghost use Rattle.rect_runs.specs.Numbers.{numbers};
ghost use Rattle.order_drawings.specs.Rows.{AreRows};
ghost use Rattle.rect_dual.specs.Turns.{AreTurns};
ghost use Rattle.rect_dual.specs.Ways.{is_marked, IsWay, IsFirstAlong};
ghost use Rattle.rect_dual.specs.States.{IsLevel, IsBehindLead, IsPutOver};
ghost use Rattle.rect_dual.specs.SidesOfBoxes.{gets_line, place_in, second_line, number_of, IsSideState, AreNumbers};

use crate::line_lists::{Linked, put_level, put_own};
use crate::rect_turns::TurnedRows;
use crate::side::Side;
use std::alloc::{AllocError, Global};

// Returns the first vertex from `start` on along `links` (for each vertex the next) that leads, by its entry in
// `leads`. It leads if no line of the contour from there on comes after its own.
fn leading(links: &[u16], leads: &[bool], start: u16) -> u16
    requires size { length leads.now ≡ length links.now }
    requires within { All (λ u. u < length links.now) links.now }
    requires start { start < length links.now }
    ensures within { result < length links.now }
    ensures first { (way : ℕ → ℕ) (m : ℕ) → start ≡ way 0 → IsWay links.now way m → is_marked leads.now (way m) ≡ true → m < length links.now → IsFirstAlong leads.now way m result }
{
    let mut v = start;
    for _step in 0..links.len() {
        if leads[v as usize] {
            return v;
        }
        v = links[v as usize];
    }
    v
}

// Marks the new vertex `z` in `leads`: no line of the contour from there on comes after its own. Unmarks `u`, an end of
// its row, if that is `at`, the vertex at which `z` looked for its line.
fn mark(leads: &mut [bool], at: u16, u: u16, z: u16)
    requires u { u < length leads.old }
    requires z { z < length leads.old }
    ensures new { is_marked leads.new z ≡ true }
    ensures end { at ≡ u → u ≢ z → is_marked leads.new u ≡ false }
    ensures others { (v : ℕ) → v ≢ z → (at ≢ u) ⊎ (v ≢ u) → is_marked leads.new v ≡ is_marked leads.old v }
{
    if at == u {
        leads[u as usize] = false;
        leads[z as usize] = true;
    } else {
        leads[z as usize] = true;
    }
}

// Where a vertex is put on over a row: the vertex at which it looks for its line, and both ends of the row.
#[derive(Clone, Copy)]
struct Seat {
    at: u16,
    // The end that leads no more, where it is the one at which the vertex looks.
    near: u16,
    far: u16,
}

// The lines of one side of each box, while vertices are put on one after another.
#[derive(Drop)]
struct SideLines {
    side: Side,
    // For each vertex the vertex that names its line.
    lines: Vec<u16>,
    // For each line the next one.
    next: Vec<u16>,
    // For each vertex the vertex of the contour at which to look next.
    links: Vec<u16>,
    // Whether each vertex leads: no line of the contour from there on comes after its own.
    leads: Vec<bool>,
    ghost next_size: { vec_len next ≡ vec_len lines },
    ghost links_size: { vec_len links ≡ vec_len lines },
    ghost leads_size: { vec_len leads ≡ vec_len lines },
    ghost within: { All (λ l. l < vec_len lines) lines.items },
    ghost next_within: { All (λ l. l < vec_len lines) next.items },
    ghost links_within: { All (λ l. l < vec_len lines) links.items },
}

impl SideLines {
    // Returns the lines (on which the sides `side` of boxes lie) of the two vertices of the base, one or two of them,
    // with room for `n` vertices. It fails only when out of memory.
    fn new(alloc: Global, side: Side, n: usize) -> Result<SideLines, AllocError>
        requires base { 2 ≤ n }
        requires few { n < 4098 }
        ensures side { IfOk result (λ made. made.side ≡ side) }
        ensures size { IfOk result (λ made. vec_len made.lines ≡ n) }
        ensures state { IfOk result (λ made. (steps : ℕ → Step) (m : ℕ) → IsSideState side steps m 0 made.lines.items made.next.items made.links.items made.leads.items) }
    {
        let second = side.second_line();
        let mut lines = vec![in alloc; 0; n]?;
        let next = vec![in alloc; 0; n]?;
        let links = vec![in alloc; second; n]?;
        let mut leads = vec![in alloc; true; n]?;
        lines[1] = second;
        leads[1] = second == 1;
        Ok(SideLines {
            side,
            lines,
            next,
            links,
            leads,
        })
    }

    // Puts the side of vertex `z` on the line of `at`, or if `own` is set on a new line after that of the first leading
    // vertex from `at` on.
    fn put_line(&mut self, at: u16, own: bool, z: u16)
        requires at { at < vec_len self.old.lines }
        requires z { z < vec_len self.old.lines }
        ensures side { self.new.side ≡ self.old.side }
        ensures size { vec_len self.new.lines ≡ vec_len self.old.lines }
        ensures links { self.new.links ≡ self.old.links }
        ensures leads { self.new.leads ≡ self.old.leads }
        ensures level { IsLevel at own z self.old.lines.items self.old.next.items self.new.lines.items self.new.next.items }
        ensures own { IsBehindLead at own z self.old.lines.items self.old.next.items self.old.links.items self.old.leads.items self.new.lines.items self.new.next.items }
    {
        if own {
            let u = leading(&self.links, &self.leads, at);
            put_own(&mut self.lines, &mut self.next, u, z)
        } else {
            put_level(&mut self.lines, at, z)
        }
    }

    // Adds the vertex `z` over a row, at its `seat` (the row's ends and the vertex at which to look for a line). It
    // gets a line of its own if `own` is set.
    fn put_over(&mut self, seat: Seat, own: bool, z: u16)
        requires at { seat.at < vec_len self.old.lines }
        requires near { seat.near < vec_len self.old.lines }
        requires far { seat.far < vec_len self.old.lines }
        requires z { z < vec_len self.old.lines }
        ensures side { self.new.side ≡ self.old.side }
        ensures size { vec_len self.new.lines ≡ vec_len self.old.lines }
        ensures over { IsPutOver seat.at own seat.near seat.far z self.old.lines.items self.old.next.items self.old.links.items self.old.leads.items self.new.lines.items self.new.next.items self.new.links.items self.new.leads.items }
    {
        let Seat { at, near, far } = seat;
        self.put_line(at, own, z);
        mark(&mut self.leads, at, near, z);
        self.links[z as usize] = far;
        self.links[near as usize] = z;
    }

    // Adds the vertex `k` + 2 over row `k` of `turned`, with its line, and updates which vertices lead.
    fn put(&mut self, turned: &TurnedRows<'_>, k: usize)
        requires row { k < length turned.now.rows.now }
        requires size { vec_len self.old.lines ≡ length turned.now.rows.now + 2 }
        ensures side { self.new.side ≡ self.old.side }
        ensures size { vec_len self.new.lines ≡ vec_len self.old.lines }
        ensures state { (steps : ℕ → Step) → AreRows steps turned.now.rows.now → AreTurns steps (length turned.now.rows.now) turned.now.places.now turned.now.runs.now → IsLabelledRun steps (length turned.now.rows.now)
            → IsSideState self.old.side steps (length turned.now.rows.now) k self.old.lines.items self.old.next.items self.old.links.items self.old.leads.items
            → IsSideState self.old.side steps (length turned.now.rows.now) (suc k) self.new.lines.items self.new.next.items self.new.links.items self.new.leads.items }
    {
        turned.rows.facts();
        let row = turned.rows.list(k);
        let own = self.side.gets_line(turned.runs[k]);
        let at = row[self.side.place_in(turned.places[k])];
        let first = row[0];
        let last = row[row.len() - 1];
        let z = (k + 2) as u16;
        match self.side {
            Side::Left => {
                let seat = Seat {
                    at,
                    near: last,
                    far: first,
                };
                self.put_over(seat, own, z)
            }
            Side::Low => {
                let seat = Seat {
                    at,
                    near: first,
                    far: last,
                };
                self.put_over(seat, own, z)
            }
        }
    }
}

/// Returns for each vertex, by rank, the number of the given `side` of its box, from the rows and turns `turned`. A new
/// vertex with a line of its own looks along the contour for the nearest one that leads.
pub(crate) fn side_numbers(
    alloc: Global,
    side: Side,
    turned: &TurnedRows<'_>,
) -> Result<Vec<u32>, AllocError>
    ensures count { IfOk result (λ made. length made.items ≡ length turned.now.rows.now + 2) }
    ensures numbers { IfOk result (λ made. (steps : ℕ → Step) → AreRows steps turned.now.rows.now → AreTurns steps (length turned.now.rows.now) turned.now.places.now turned.now.runs.now → IsLabelledRun steps (length turned.now.rows.now)
        → (v : ℕ) → v < length turned.now.rows.now + 2 → slice_index made.items v ≡ number_of side (numbers steps (length turned.now.rows.now)) v) }
{
    let n = turned.rows.len();
    let mut made = SideLines::new(alloc, side, n + 2)?;
    let mut count = usize::from(side.second_line()) + 1;
    for k in 0..n {
        made.put(turned, k);
        count += usize::from(side.gets_line(turned.runs[k]));
    }
    let linked = Linked {
        lines: &made.lines,
        next: &made.next,
    };
    let numbers = linked.numbers(alloc, side.second_line(), count)?;
    Ok(numbers)
}

/// The left and the lower side of each box, by rank.
#[derive(Drop)]
pub(crate) struct RowNumbers {
    pub x: Vec<u32>,
    pub y: Vec<u32>,
}

/// Returns by rank the left and lower sides of all boxes, from rows and turns. It fails only when out of memory.
pub(crate) fn row_numbers(alloc: Global, turned: &TurnedRows<'_>) -> Result<RowNumbers, AllocError>
    ensures count { IfOk result (λ numbers. length numbers.x.items ≡ length turned.now.rows.now + 2) }
    ensures count_y { IfOk result (λ numbers. length numbers.y.items ≡ length turned.now.rows.now + 2) }
    ensures numbers { IfOk result (λ numbers. (steps : ℕ → Step) → AreRows steps turned.now.rows.now → AreTurns steps (length turned.now.rows.now) turned.now.places.now turned.now.runs.now → IsLabelledRun steps (length turned.now.rows.now)
        → AreNumbers steps (length turned.now.rows.now) numbers.x.items numbers.y.items) }
{
    let x = side_numbers(alloc, Side::Left, turned)?;
    let y = side_numbers(alloc, Side::Low, turned)?;
    Ok(RowNumbers { x, y })
}
