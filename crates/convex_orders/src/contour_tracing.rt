//! Traces the contour along the edges between removed and remaining faces, and notes the faces on both sides.
ghost use Rattle.std.specs.Prelude.{◌<◌, ◌≤◌, ℕ, Bool, length, IfOk, MatchOption};
ghost use Rattle.convex_orders.specs.Shown.{IsListOf, IsTrace, SomeTrace, IsRimIn};
ghost use Rattle.convex_orders.specs.Splits.{IsRimAt, AreRowsBelow, HasRim};
ghost use Rattle.convex_orders.specs.Noted.{AreRims, IsSeen, AreNoted};

use crate::remaining_faces::Marked;
use crate::slice_tools::refill;
use std::alloc::{AllocError, Global};

/// The faces on both sides of the contour, by face number, one entry for each vertex.
#[derive(Drop)]
pub(crate) struct ContourFaces {
    /// The index of the dart along the contour in the list of the vertex, as a hint on which no answer rests.
    pub(crate) hints: Vec<u16>,
    /// The number of the face inside of the edge to the next vertex.
    pub(crate) inner: Vec<u32>,
    /// The number of the face outside of it.
    pub(crate) outer: Vec<u32>,
}

// Returns the first index from `from` on of a contour edge in a vertex's list, if any. The face of that dart, in `own`,
// has no mark in `marks` (it is removed), and the face of the dart back, in `other`, has one.
fn rim_from(own: &[u32], other: &[u32], marks: &[bool], from: usize) -> Option<usize>
    requires rows { AreRowsBelow own.now other.now (length marks.now) }
    ensures { MatchOption result ((k : ℕ) → from ≤ k → ¬ IsRimAt own.now other.now marks.now k) (λ k. IsRimAt own.now other.now marks.now k) }
{
    for k in from..own.len() {
        if !marks[own[k] as usize] && marks[other[k] as usize] {
            return Some(k);
        }
    }
    None
}

// Like [`rim_from`], returns the index of a contour edge, but goes on from the front if it finds none. One exists.
fn rim_near(own: &[u32], other: &[u32], marks: &[bool], from: usize) -> usize
    requires { HasRim own.now other.now marks.now }
    ensures { IsRimAt own.now other.now marks.now result }
{
    match rim_from(own, other, marks, from) {
        Some(k) => k,
        None => match rim_from(own, other, marks, 0) {
            Some(k) => k,
            None => 0,
        },
    }
}

impl ContourFaces {
    /// Returns room for no vertices. It takes no memory.
    pub(crate) fn new(alloc: Global) -> ContourFaces {
        ContourFaces {
            hints: Vec::new(alloc),
            inner: Vec::new(alloc),
            outer: Vec::new(alloc),
        }
    }

    /// Makes room for `n` vertices, with nothing noted yet.
    pub(crate) fn clear(&mut self, n: usize) -> Result<(), AllocError>
        ensures { IfOk result (λ _. AreRims self.new n) }
    {
        refill(&mut self.hints, 0, n)?;
        refill(&mut self.inner, 0, n)?;
        refill(&mut self.outer, 0, n)?;
        Ok(())
    }

    // Finds the contour edge of `map` that leaves vertex `x`, which has one. Notes at `x` its index in the list and the
    // faces on its two sides, and returns its other end. The search begins at the index noted at `x` before.
    fn see(&mut self, map: &Marked<'_>, x: u16) -> u16
        requires size { AreRims self.old (length map.now.tables.now.lists) }
        requires some { (y : ℕ) × IsRimIn map.now.tables.now.lists map.now.tables.now.faces.own map.now.tables.now.faces.other map.now.marks.now x y }
        ensures rim { IsRimIn map.now.tables.now.lists map.now.tables.now.faces.own map.now.tables.now.faces.other map.now.marks.now x result }
        ensures seen { IsSeen map.now.tables.now.lists map.now.tables.now.faces.own x result self.old self.new }
    {
        let v = x as usize;
        let own = map.tables.faces.own.list(v);
        let other = map.tables.faces.other.list(v);
        let k = rim_near(own, other, map.marks, usize::from(self.hints[v]));
        self.hints[v] = (k & 0xffff) as u16;
        self.inner[v] = other[k];
        self.outer[v] = own[k];
        map.tables.lists.list(v)[k]
    }

    /// Appends to `left` the contour of `map` from after the last vertex of `left` up to vertex `stop`, which comes
    /// later on it. Notes at each vertex on the way the faces on both sides of the edge to the next.
    pub(crate) fn trace(
        &mut self,
        left: &mut Vec<u16>,
        map: &Marked<'_>,
        stop: u16,
    ) -> Result<(), AllocError>
        requires size { AreRims self.old (length map.now.tables.now.lists) }
        requires some { SomeTrace map.now.tables.now.lists map.now.tables.now.faces.own map.now.marks.now left.old.items stop }
        ensures list { IfOk result (λ _. (alive : ℕ → Bool) (w : ℕ → ℕ) (r a b : ℕ) → IsTrace map.now.tables.now.lists map.now.tables.now.faces.own map.now.marks.now left.old.items stop alive w r a b → IsListOf left.new.items w b) }
        ensures noted { IfOk result (λ _. (alive : ℕ → Bool) (w : ℕ → ℕ) (r a b : ℕ) → IsTrace map.now.tables.now.lists map.now.tables.now.faces.own map.now.marks.now left.old.items stop alive w r a b → AreNoted map.now.tables.now.lists map.now.tables.now.faces.own w a b self.old self.new) }
        ensures size { AreRims self.new (length map.now.tables.now.lists) }
    {
        let mut x = left[left.len() - 1];
        for _ in 0..map.tables.lists.len() {
            x = self.see(map, x);
            left.push(x)?;
            if x == stop {
                return Ok(());
            }
        }
        Ok(())
    }
}
