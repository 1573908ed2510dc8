//! Removes faces at the chosen vertex of the contour, and finds the interval of the contour that disappears with them.
ghost use Rattle.std.specs.Prelude.{◌≡◌, ◌<◌, ◌≤◌, ◌↔◌, ℕ, suc, Bool, true, false, length, slice_index, slice_set, Contains, IsTrue};
ghost use Rattle.convex_orders.specs.Contours.{vertices_of, number_at, AreInner};
ghost use Rattle.convex_orders.specs.Shown.{is_set, IsChoice, GoesOffNear, GoesOffAt};
ghost use Rattle.convex_orders.specs.Splits.{IsGoneRun};
ghost use Rattle.convex_orders.specs.Tables.{CanGo};

use crate::contour::Contour;
use crate::map_tables::Tables;

/// The edges of a contour with a vertex before its current position, and the number of the face inside of each.
#[derive(Clone, Copy)]
pub(crate) struct ContourEdges<'a> {
    pub(crate) tables: &'a Tables,
    pub(crate) contour: &'a Contour,
    /// For each vertex the number of the face inside of the edge from it on.
    pub(crate) inner: &'a [u32],
    ghost some: { 0 < length contour.now.left.items },
    ghost numbered: { ∥ AreInner tables.now.lists tables.now.faces.own (vertices_of contour.now) inner.now ∥₁ },
}

/// Clears in `marks` the marks of the faces whose numbers `row` lists: they are removed.
pub(crate) fn clear_faces(marks: &mut [bool], row: &[u32])
    requires within { (k : ℕ) → k < length row.now → slice_index row.now k < length marks.old }
    ensures long { length marks.new ≡ length marks.old }
    ensures set { (f : ℕ) → (is_set marks.new f ≡ true) ↔ ((is_set marks.old f ≡ true) × (¬ Contains row.now f)) }
{
    for k in 0..row.len() {
        marks[row[k] as usize] = false;
    }
}

// Clears in `marks` the mark of the face with number `f`: it is removed.
fn clear_face(marks: &mut [bool], f: u32)
    requires within { f < length marks.old }
    ensures { marks.new ≡ slice_set marks.old f false }
{
    marks[f as usize] = false;
}

impl ContourEdges<'_> {
    // Returns the number of the face inside of the contour edge from index `i` on.
    fn number(&self, i: usize) -> u32
        requires within { i < length (vertices_of self.now.contour.now) }
        ensures { result ≡ number_at self.now.inner.now (vertices_of self.now.contour.now) i }
    {
        self.inner[self.contour.vertex(i) as usize]
    }

    // Says whether there are contour edges from index `i` and from the next one, and one face is inside of both.
    fn is_same(&self, i: usize) -> bool
        requires { i < length (vertices_of self.now.contour.now) }
        ensures { IsTrue result ↔ ((suc (suc i) < length (vertices_of self.now.contour.now)) × (number_at self.now.inner.now (vertices_of self.now.contour.now) i ≡ number_at self.now.inner.now (vertices_of self.now.contour.now) (suc i))) }
    {
        if self.contour.len() <= i + 2 {
            return false;
        }
        self.number(i) == self.number(i + 1)
    }

    // Says whether there are two contour edges before index `j`, and one face is inside of both.
    fn has_left(&self, j: usize) -> bool
        requires within { j < length (vertices_of self.now.contour.now) }
        ensures yes { IsTrue result → (h : ℕ) × (suc (suc h) ≡ j) × (number_at self.now.inner.now (vertices_of self.now.contour.now) h ≡ number_at self.now.inner.now (vertices_of self.now.contour.now) (suc h)) }
        ensures no { (h : ℕ) → suc (suc h) ≡ j → number_at self.now.inner.now (vertices_of self.now.contour.now) h ≡ number_at self.now.inner.now (vertices_of self.now.contour.now) (suc h) → IsTrue result }
    {
        j >= 2 && self.is_same(j - 2)
    }

    // Clears in `marks` the faces removed with the vertex before the current position, which has to be removable. It is
    // one face, if that is inside of the two contour edges after the vertex or before it, else all at the vertex.
    fn take_at(&self, marks: &mut [bool])
        requires place { (j : ℕ) → suc j ≡ length self.now.contour.now.left.items → CanGo self.now.tables.now marks.old (vertices_of self.now.contour.now) j }
        ensures long { length marks.new ≡ length marks.old }
        ensures goes { (alive : ℕ → Bool) (w : ℕ → ℕ) (r j : ℕ) → suc j ≡ length self.now.contour.now.left.items → IsChoice self.now.tables.now.lists self.now.tables.now.faces.own marks.old self.now.tables.now.tail self.now.tables.now.head (vertices_of self.now.contour.now) alive w r → GoesOffNear self.now.tables.now.lists self.now.tables.now.faces.own marks.new alive w r j }
    {
        let j = self.contour.left.len() - 1;
        if self.is_same(j) {
            clear_face(marks, self.number(j));
        } else if self.has_left(j) {
            clear_face(marks, self.number(j - 1));
        } else {
            let v = self.contour.left[j];
            clear_faces(marks, self.tables.faces.own.list(v as usize));
        }
    }

    // Says whether the face inside of the contour edge from index `i` to the next is left, by its entry in `marks`.
    fn is_kept(&self, marks: &[bool], i: usize) -> bool
        requires within { suc i < length (vertices_of self.now.contour.now) }
        requires long { length marks.now ≡ self.now.tables.now.faces.count }
        ensures { result ≡ is_set marks.now (number_at self.now.inner.now (vertices_of self.now.contour.now) i) }
    {
        marks[self.number(i) as usize]
    }

    // Returns the index at which the removed interval ends. All contour edges from the vertex before the current
    // position up to there have an unmarked face inside.
    fn end_of(&self, marks: &[bool]) -> usize
        requires long { length marks.now ≡ self.now.tables.now.faces.count }
        ensures { (first end j : ℕ) → suc j ≡ length self.now.contour.now.left.items → first ≤ j → j ≤ end → IsGoneRun (number_at self.now.inner.now (vertices_of self.now.contour.now)) marks.now (length (vertices_of self.now.contour.now)) first end → result ≡ end }
    {
        let edges = *self;
        let last = edges.contour.len() - 1;
        for i in edges.contour.left.len() - 1..last {
            if edges.is_kept(marks, i) {
                return i;
            }
        }
        last
    }

    // Returns the index at which the removed interval begins. All contour edges from there up to the vertex before the
    // current position have an unmarked face inside.
    fn first_of(&self, marks: &[bool]) -> usize
        requires long { length marks.now ≡ self.now.tables.now.faces.count }
        ensures { (first end j : ℕ) → suc j ≡ length self.now.contour.now.left.items → first ≤ j → j ≤ end → IsGoneRun (number_at self.now.inner.now (vertices_of self.now.contour.now)) marks.now (length (vertices_of self.now.contour.now)) first end → result ≡ first }
    {
        let edges = *self;
        let from = edges.contour.left.len();
        for k in 1..from {
            if edges.is_kept(marks, from - 1 - k) {
                return from - k;
            }
        }
        0
    }

    /// Clears in `marks` the faces removed with the vertex before the current position, which has to be removable.
    /// Returns the first and the last index of the contour interval along which those faces were.
    pub(crate) fn take_run(&self, marks: &mut [bool]) -> (usize, usize)
        requires place { (j : ℕ) → suc j ≡ length self.now.contour.now.left.items → CanGo self.now.tables.now marks.old (vertices_of self.now.contour.now) j }
        ensures long { length marks.new ≡ length marks.old }
        ensures goes { (alive : ℕ → Bool) (w : ℕ → ℕ) (r : ℕ) → IsChoice self.now.tables.now.lists self.now.tables.now.faces.own marks.old self.now.tables.now.tail self.now.tables.now.head (vertices_of self.now.contour.now) alive w r → GoesOffAt self.now.tables.now.lists self.now.tables.now.faces.own marks.new alive w r result.0 result.1 }
    {
        self.take_at(marks);
        (self.first_of(marks), self.end_of(marks))
    }
}
