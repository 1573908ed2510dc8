//! The public check `check_rects` of a rectangular dual, and the order in which it looks for faults.
ghost use Rattle.std.specs.Prelude.{◌≡◌, ◌<◌, ◌≤◌, length, MatchOption};
ghost use Rattle.std.specs.Bool.{OnTrue};
ghost use Rattle.half_edges.specs.Map.{IsHalfMap};
ghost use Rattle.vertex_rounds.specs.Least.{IsLeastPair};
ghost use Rattle.drawings.specs.Duals.{HasRects, HasFrame, IsRectangularDual};
ghost use Rattle.rect_check.specs.Faults.{RectsMeet, HasWrongContact};
ghost use Rattle.drawings.specs.Frames.{IsFrame};
ghost use Rattle.rect_check.specs.Verdicts.{AreRects, NoneMeet, DoFill, HasContacts, IsUnframed, IsRectVerdict};

use crate::RectVerdict;
use crate::outer_frame::first_unframed;
use crate::rects::{Rects, first_bad_rect};
use drawings::outer_four;
use half_edges::{HalfMap, VertexId};
use pg_plane::RectFigure;

impl Rects<'_> {
    // Returns the least two rectangles whose interiors meet, or `None`. The caller sets `fitting` only where none do.
    fn first_meeting(&self, fitting: bool) -> Option<(VertexId, VertexId)>
        requires fitting { OnTrue fitting (NoneMeet self.now.map.now.lists self.now.fig.now) }
        ensures { MatchOption result (NoneMeet self.now.map.now.lists self.now.fig.now)
            (λ p. IsLeastPair (RectsMeet self.now.map.now.lists self.now.fig.now) p.0.0 p.1.0) }
    {
        if fitting { None } else { self.first_meet() }
    }

    // Returns the first of three faults: two rectangles that meet, a gap (the areas do not fill the whole), or a wrong
    // contact; or `None`. `marks` is scratch space, with a flag for each vertex.
    fn first_of_pairs_in(&self, marks: &mut [bool]) -> Option<RectVerdict>
        requires marks { length marks.old ≡ length self.now.map.now.lists }
        ensures { MatchOption result (NoneMeet self.now.map.now.lists self.now.fig.now × DoFill self.now.map.now.lists self.now.fig.now × HasContacts self.now.map.now.lists self.now.fig.now)
            (IsRectVerdict self.now.map.now.lists self.now.fig.now) }
    {
        let fitting = self.are_fitting(marks);
        if let Some((u, v)) = self.first_meeting(fitting) {
            return Some(RectVerdict::Meet(u, v));
        }
        if !self.do_fill() {
            return Some(RectVerdict::Gap);
        }
        match self.first_wrong(marks) {
            Some((u, v)) => Some(RectVerdict::Contact(u, v)),
            None => None,
        }
    }

    // Returns the first of the three faults, as `first_of_pairs_in` does, or `None`. An array of `MOST` flags, for the
    // `n` vertices of the map, is on the stack.
    fn first_of_pairs_of<const MOST: usize>(&self, n: usize) -> Option<RectVerdict>
        requires n { n ≡ length self.now.map.now.lists }
        requires most { n ≤ MOST }
        requires room { MOST < 4096 }
        ensures { MatchOption result (NoneMeet self.now.map.now.lists self.now.fig.now × DoFill self.now.map.now.lists self.now.fig.now × HasContacts self.now.map.now.lists self.now.fig.now)
            (IsRectVerdict self.now.map.now.lists self.now.fig.now) }
    {
        let mut marks = [false; MOST];
        self.first_of_pairs_in(&mut marks[..n])
    }

    // Returns the first pair that meets, else a gap, else a wrong contact, or `None`. It has 255 or 4095 flags.
    fn first_of_pairs(&self) -> Option<RectVerdict>
        ensures { MatchOption result (NoneMeet self.now.map.now.lists self.now.fig.now × DoFill self.now.map.now.lists self.now.fig.now × HasContacts self.now.map.now.lists self.now.fig.now)
            (IsRectVerdict self.now.map.now.lists self.now.fig.now) }
    {
        let n = self.map.n() as usize;
        if n <= 255 {
            self.first_of_pairs_of::<255>(n)
        } else {
            self.first_of_pairs_of::<4095>(n)
        }
    }
}

/// Returns the first fault of a rectangular dual in the order of the variants of `RectVerdict`, with the least ids,
/// or `Yes` exactly where it is one of the map.
///
/// `fig` has a rectangle for each vertex. It takes no memory from the heap, and at most 30 KB of the stack. A sweep
/// along each of the two axes keeps which rectangle each interval of rows has last. It compares each new one with
/// those of its intervals, looks each contact up in the shorter of two lists, and marks the two of one that is no
/// edge. Where rectangles meet, two passes over the rows mark those that do. The time of a valid figure is linear in
/// the vertices and the darts. Otherwise the sum of all heights is added, and for the least fault only a marked
/// rectangle is compared with all others.
pub fn check_rects(map: &HalfMap, fig: &RectFigure) -> RectVerdict
    requires { HasRects map.now.lists fig.now }
    ensures { IsRectVerdict map.now.lists fig.now result }
{
    if let Some(v) = first_bad_rect(map, fig) {
        return RectVerdict::BadRect(v);
    }
    if let Some(verdict) = (Rects { map, fig }).first_of_pairs() {
        return verdict;
    }
    let Some(found) = outer_four(map) else {
        return RectVerdict::NoFrame;
    };
    match first_unframed(fig, found) {
        Some(v) => RectVerdict::Frame(v),
        None => RectVerdict::Yes,
    }
}
