//! A sweep's status, the lines that it meets from bottom to top, with a gap in the array, and its step over a vertex.
ghost use Rattle.std.specs.Prelude.{◌≡◌, ℕ, ◌+◌, ◌-◌, ◌<◌, ◌≤◌, ◌++◌, length, take, drop, slice_index_or, All, pos, ◌<ℤ◌, IfSome};
ghost use Rattle.std.specs.Bool.{OnTrue};
ghost use Rattle.pg_plane.specs.Range.{IsInRange};
ghost use Rattle.plane_drawings.specs.Drawing.{place};
ghost use Rattle.plane_drawings.specs.PlaneSweepLines.{IsLine, rise, Ends};
ghost use Rattle.plane_drawings.specs.Tests.{around, IsPassed};

use crate::plane_sweep::Line;
use crate::sweep_check::line_sides::{end_apart, rise};
use pg_plane::Point;

// The gap in the array of a status: its lines are those before `begin` and those from `end` on.
#[derive(Clone, Copy)]
pub(crate) struct Gap {
    pub(crate) begin: usize,
    pub(crate) end: usize,
}

// The vertex that a sweep is at: the points in its order, the vertex's rank, and the lines that begin there.
#[derive(Clone, Copy)]
pub(crate) struct AtVertex<'a> {
    pub(crate) places: &'a [Point],
    pub(crate) v: u16,
    pub(crate) fresh: &'a [Line],
    pub(crate) ghost in_range: { All IsInRange places.now },
    pub(crate) ghost vertex: { v < length places.now },
    pub(crate) ghost lines: { All (IsLine (length places.now)) fresh.now },
}

// Returns the first index of `status` from `begin` on whose line does not end at the vertex of rank `v`, or its length.
fn run_end(status: &[Line], begin: usize, v: u16) -> usize
    requires { begin ≤ length status.now }
    ensures order { begin ≤ result }
    ensures within { result ≤ length status.now }
    ensures run { (k : ℕ) (d : Line) → begin ≤ k → k < result → (slice_index_or status.now k d).high ≡ v }
{
    for k in begin..status.len() {
        if status[k].high != v {
            return k;
        }
    }
    status.len()
}

// Moves `gap`, the unused part of `status`, by copying lines over it, to begin at index `place`. Returns its new end.
fn move_gap(status: &mut [Line], gap: Gap, place: usize) -> usize
    requires order { gap.begin ≤ gap.end }
    requires within { gap.end ≤ length status.old }
    requires place { place ≤ gap.begin + (length status.old - gap.end) }
    ensures order { place ≤ result }
    ensures within { result ≤ length status.new }
    ensures lines { around place result status.new ≡ around gap.begin gap.end status.old }
{
    if place <= gap.begin {
        let end = gap.end - (gap.begin - place);
        status.copy_within(place..gap.begin, end);
        end
    } else {
        let end = gap.end + (place - gap.begin);
        status.copy_within(gap.end..end, gap.begin);
        end
    }
}

impl AtVertex<'_> {
    // Returns how many lines of `lower` and then `upper`, from bottom to top, the vertex is above, by a binary search.
    // The count is right only where those are the lowest ones, which is not required.
    fn count_around(&self, lower: &[Line], upper: &[Line]) -> usize
        requires lower { All (IsLine (length self.now.places.now)) lower.now }
        requires upper { All (IsLine (length self.now.places.now)) upper.now }
        ensures { result ≤ length lower.now + length upper.now }
    {
        let mut begin = 0;
        let mut end = lower.len() + upper.len();
        while begin < end {
            let middle = begin + (end - begin) / 2;
            let height = if middle < lower.len() {
                rise(self.places, lower[middle], self.v)
            } else {
                rise(self.places, upper[middle - lower.len()], self.v)
            };
            if 0 < height {
                begin = middle + 1;
            } else {
                end = middle;
            }
        }
        begin
    }

    // Says whether the vertex is strictly above the line of `status` before index `begin`, or there is none.
    fn is_above(&self, status: &[Line], begin: usize) -> bool
        requires lines { All (IsLine (length self.now.places.now)) status.now }
        requires within { begin ≤ length status.now }
        ensures { OnTrue result ((d : Line) → 0 < begin → pos 0 <ℤ rise (place self.now.places.now) (slice_index_or status.now (begin - 1) d) self.now.v) }
    {
        begin == 0 || 0 < rise(self.places, status[begin - 1], self.v)
    }

    // Says whether the vertex is strictly below the line of `status` at index `end`, or there is none.
    fn is_below(&self, status: &[Line], end: usize) -> bool
        requires lines { All (IsLine (length self.now.places.now)) status.now }
        requires within { end ≤ length status.now }
        ensures { OnTrue result ((d : Line) → end < length status.now → rise (place self.now.places.now) (slice_index_or status.now end d) self.now.v <ℤ pos 0) }
    {
        end == status.len() || rise(self.places, status[end], self.v) < 0
    }

    // Says whether of each two neighbouring lines of `status` from index `begin` on the one that ends first ends on its
    // side of the other. If not, their ends are written to `suspects`.
    fn all_end_apart(&self, status: &[Line], begin: usize, suspects: &mut [u16; 4]) -> bool
        requires lines { All (IsLine (length self.now.places.now)) status.now }
        ensures { OnTrue result ((k : ℕ) (d : Line) → begin ≤ k → k + 1 < length status.now
            → Ends (place self.now.places.now) (slice_index_or status.now k d) (slice_index_or status.now (k + 1) d)) }
    {
        for k in begin..status.len() {
            if k + 1 < status.len() && !end_apart(self.places, status[k], status[k + 1]) {
                let (e, f) = (status[k], status[k + 1]);
                *suspects = [e.low, e.high, f.low, f.high];
                return false;
            }
        }
        true
    }

    // Says whether the last line of `lower` and the first of `upper` end on their sides of each other. If not, their
    // ends are written to `suspects`.
    fn is_seam_apart(&self, lower: &[Line], upper: &[Line], suspects: &mut [u16; 4]) -> bool
        requires lower { All (IsLine (length self.now.places.now)) lower.now }
        requires upper { All (IsLine (length self.now.places.now)) upper.now }
        ensures { OnTrue result ((d : Line) → 0 < length lower.now → 0 < length upper.now
            → Ends (place self.now.places.now) (slice_index_or lower.now (length lower.now - 1) d) (slice_index_or upper.now 0 d)) }
    {
        if lower.is_empty() || upper.is_empty() {
            return true;
        }
        let e = lower[lower.len() - 1];
        let f = upper[0];
        if end_apart(self.places, e, f) {
            return true;
        }
        *suspects = [e.low, e.high, f.low, f.high];
        false
    }

    // Replaces in `status` the lines that end at the vertex by those that begin there. `gap` must stand after the lines
    // below the vertex. Returns the new gap, or None on a failed test or no room. `suspects` then may have the ends of
    // lines at fault.
    fn pass(&self, status: &mut [Line], gap: Gap, suspects: &mut [u16; 4]) -> Option<Gap>
        requires order { gap.begin ≤ gap.end }
        requires within { gap.end ≤ length status.old }
        requires lines { All (IsLine (length self.now.places.now)) (around gap.begin gap.end status.old) }
        ensures order { IfSome result (λ g. (g.begin ≤ g.end) × (g.end ≤ length status.new)) }
        ensures passed { IfSome result (λ g. IsPassed (place self.now.places.now) self.now.v self.now.fresh.now (around gap.begin gap.end status.old) (around g.begin g.end status.new)) }
    {
        let lines = &status[..];
        let end = gap.end + run_end(&lines[gap.end..], 0, self.v);
        let begin = gap.begin + self.fresh.len();
        if end < begin {
            return None;
        }
        if !self.is_above(&lines[..gap.begin], gap.begin) {
            return None;
        }
        if !self.is_below(&lines[end..], 0) {
            if end < lines.len() {
                let f = lines[end];
                *suspects = [self.v, self.v, f.low, f.high];
            }
            return None;
        }
        status[gap.begin..begin].copy_from_slice(self.fresh);
        let lines = &status[..];
        if !self.all_end_apart(&lines[..begin], gap.begin.saturating_sub(1), suspects) {
            return None;
        }
        if self.is_seam_apart(&lines[..begin], &lines[end..], suspects) {
            Some(Gap { begin, end })
        } else {
            None
        }
    }

    // Moves `gap` in `status` to the vertex, and replaces the lines that end there by those that begin there. Returns
    // the new gap, or None on a failed test or no room; `suspects` then may have the ends of lines at fault.
    pub(crate) fn step(&self, status: &mut [Line], gap: Gap, suspects: &mut [u16; 4]) -> Option<Gap>
        requires order { gap.begin ≤ gap.end }
        requires within { gap.end ≤ length status.old }
        requires lines { All (IsLine (length self.now.places.now)) (around gap.begin gap.end status.old) }
        ensures order { IfSome result (λ g. (g.begin ≤ g.end) × (g.end ≤ length status.new)) }
        ensures passed { IfSome result (λ g. IsPassed (place self.now.places.now) self.now.v self.now.fresh.now (around gap.begin gap.end status.old) (around g.begin g.end status.new)) }
    {
        let lines = &status[..];
        let begin = self.count_around(&lines[..gap.begin], &lines[gap.end..]);
        let end = move_gap(status, gap, begin);
        self.pass(status, Gap { begin, end }, suspects)
    }
}
