//! How often each face meets the contour, at vertices and along edges, updated as intervals of the contour come and go.
ghost use Rattle.std.specs.Prelude.{◌-◌, ◌<◌, ◌==◌, ℕ, suc, length, slice_index, count_by, All, IfOk};
ghost use Rattle.map_theory.specs.Maps.{list_of};
ghost use Rattle.convex_orders.specs.Contours.{number_at, AreInner};
ghost use Rattle.convex_orders.specs.Counts.{met_below, numbered_below, AreCounts};
ghost use Rattle.convex_orders.specs.Moved.{HaveSize, AreNone, CanMoveAll, AreMoved};
ghost use Rattle.convex_orders.specs.Ways.{CanMove, IsMoved};

use crate::contour_interval::ContourInterval;
use crate::count_direction::Way;
use crate::map_tables::Tables;
use crate::slice_tools::{part, refill};
use map_lists::ItemLists;
use std::alloc::{AllocError, Global};

/// For each face number how often it occurs round the contour's vertices, and how many edges of the contour it has.
#[derive(Drop)]
pub(crate) struct ContourCounts {
    pub(crate) places: Vec<u16>,
    pub(crate) edges: Vec<u16>,
}

// Adds one to the entry in `counts` of each face number in `row`, or subtracts one where `way` is `Goes`. `counts` has
// an entry for each face number, and a number that `row` repeats counts each time.
fn move_row(counts: &mut [u16], way: Way, row: &[u32])
    requires within { All (λ u. u < length counts.old) row.now }
    requires can { (f : ℕ) → f < length counts.old → CanMove way (slice_index counts.old f) (count_by (λ u. u == f) row.now) }
    ensures { (f : ℕ) → f < length counts.old → IsMoved way (slice_index counts.old f) (count_by (λ u. u == f) row.now) (slice_index counts.new f) }
{
    for u in row {
        let f = *u as usize;
        counts[f] = way.moved(counts[f]);
    }
}

// Adds one in `counts`, by face number, for each face round each vertex of `vs`, or subtracts it where `way` is `Goes`.
// `own` has for each vertex the list of these numbers.
fn move_rows(counts: &mut [u16], way: Way, own: &ItemLists<u32>, vs: &[u16])
    requires vertices { (i : ℕ) → i < length vs.now → slice_index vs.now i < length own.now }
    requires below { (v : ℕ) → v < length own.now → All (λ f. f < length counts.old) (list_of own.now v) }
    requires can { (f : ℕ) → f < length counts.old → CanMove way (slice_index counts.old f) (met_below own.now vs.now (length vs.now) f) }
    ensures { (f : ℕ) → f < length counts.old → IsMoved way (slice_index counts.old f) (met_below own.now vs.now (length vs.now) f) (slice_index counts.new f) }
{
    for i in 0..vs.len() {
        move_row(counts, way, own.list(vs[i] as usize));
    }
}

// Adds one in `counts`, by face number, for the face inside of each edge between consecutive vertices of `vs`, or
// subtracts it where `way` is `Goes`. `inner` has the number of that face for each vertex and its next edge.
fn move_edges(counts: &mut [u16], way: Way, inner: &[u32], vs: &[u16])
    requires some { 0 < length vs.now }
    requires vertices { (i : ℕ) → suc i < length vs.now → slice_index vs.now i < length inner.now }
    requires below { (i : ℕ) → suc i < length vs.now → number_at inner.now vs.now i < length counts.old }
    requires can { (f : ℕ) → f < length counts.old → CanMove way (slice_index counts.old f) (numbered_below (number_at inner.now vs.now) (length vs.now - 1) f) }
    ensures { (f : ℕ) → f < length counts.old → IsMoved way (slice_index counts.old f) (numbered_below (number_at inner.now vs.now) (length vs.now - 1) f) (slice_index counts.new f) }
{
    for i in 0..vs.len() - 1 {
        let f = inner[vs[i] as usize] as usize;
        counts[f] = way.moved(counts[f]);
    }
}

impl ContourCounts {
    /// Returns counts of no faces. They take no memory.
    pub(crate) fn new(alloc: Global) -> ContourCounts {
        ContourCounts {
            places: Vec::new(alloc),
            edges: Vec::new(alloc),
        }
    }

    /// Makes room for `count` faces, with nothing counted yet.
    pub(crate) fn clear(&mut self, count: usize) -> Result<(), AllocError>
        ensures size { IfOk result (λ _. HaveSize self.new count) }
        ensures none { IfOk result (λ _. AreNone self.new) }
    {
        refill(&mut self.places, 0, count)?;
        refill(&mut self.edges, 0, count)?;
        Ok(())
    }

    /// Adds to the counts what the interval `stretch` of the contour has, or subtracts it where `way` is `Goes`. It has
    /// the faces round the vertices strictly within it, and those inside of all its edges.
    pub(crate) fn move_part(&mut self, way: Way, stretch: &ContourInterval<'_>)
        requires size { HaveSize self.old stretch.now.tables.now.faces.count }
        requires can { CanMoveAll stretch.now.tables.now.lists stretch.now.tables.now.faces.own stretch.now.tables.now.faces.count way stretch.now.ws.now stretch.now.first stretch.now.last self.old }
        ensures { AreMoved stretch.now.tables.now.lists stretch.now.tables.now.faces.own stretch.now.tables.now.faces.count way stretch.now.ws.now stretch.now.first stretch.now.last self.old self.new }
    {
        let ContourInterval {
            tables,
            inner,
            ws,
            first,
            last,
        } = *stretch;
        move_rows(
            &mut self.places,
            way,
            &tables.faces.own,
            part(ws, first + 1, last),
        );
        move_edges(&mut self.edges, way, inner, part(ws, first, last + 1));
    }

    /// Counts the faces round the vertices of the contour `ws` and inside of its edges, where all counts are zero.
    /// `inner` has for each vertex the number of the face inside of its edge to the next.
    pub(crate) fn count_all(&mut self, tables: &Tables, inner: &[u32], ws: &[u16])
        requires size { HaveSize self.old tables.now.faces.count }
        requires inner { AreInner tables.now.lists tables.now.faces.own ws.now inner.now }
        requires some { 0 < length ws.now }
        requires few { length ws.now < 65536 }
        requires none { AreNone self.old }
        requires once { (f : ℕ) → met_below tables.now.faces.own ws.now (length ws.now) f < 65536 }
        ensures { AreCounts tables.now.lists tables.now.faces.own tables.now.faces.count ws.now self.new.places.items self.new.edges.items }
    {
        move_rows(&mut self.places, Way::Comes, &tables.faces.own, ws);
        move_edges(&mut self.edges, Way::Comes, inner, ws);
    }
}
