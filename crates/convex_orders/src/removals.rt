//! Removes vertices and faces from the contour, one removal after another, and appends the row of each.
ghost use Rattle.std.specs.Prelude.{◌≡◌, ◌+◌, ◌-◌, ◌<◌, ℕ, suc, Bool, true, false, [], ◌∷◌, ◌++◌, length, IsTrue, IfOk};
ghost use Rattle.map_theory.specs.Maps.{dart_count};
ghost use Rattle.convex_peeling.specs.Contours.{IsFirst};
ghost use Rattle.convex_peeling.specs.Removals.{Removal};
ghost use Rattle.convex_laws.specs.Removed.{IsRowMore, AreRowsOfRun};
ghost use Rattle.convex_orders.specs.FaceNumbers.{entry};
ghost use Rattle.convex_orders.specs.Contours.{vertices_of, number_at, AreInner};
ghost use Rattle.convex_orders.specs.Cuts.{AreCutPlaces, IsPutIn, IsTakenOut};
ghost use Rattle.convex_orders.specs.Moved.{HaveSize, CanMoveAll, AreMoved};
ghost use Rattle.convex_orders.specs.Noted.{AreRims};
ghost use Rattle.convex_orders.specs.Shown.{IsListOf, IsShown, IsOffAt, SomeOff};
ghost use Rattle.convex_orders.specs.Standing.{HasOther, AllInner};
ghost use Rattle.convex_orders.specs.Tables.{IsBlank, IsKept, StandsBy};
ghost use Rattle.convex_orders.specs.declared.count_direction.Way.TheVariants.{Comes, Goes};

use crate::contour::Contour;
use crate::contour_counts::ContourCounts;
use crate::contour_interval::ContourInterval;
use crate::contour_tracing::ContourFaces;
use crate::count_direction::Way;
use crate::interval_cuts::put_cuts;
use crate::map_tables::Tables;
use crate::next_removal::Choice;
use crate::remaining_faces::Marked;
use crate::removed_faces::{ContourEdges, clear_faces};
use crate::slice_tools::{part, refill};
use convex_laws::convex_rows::ConvexRows;
use map_lists::ItemLists;
use std::alloc::{AllocError, Global};

/// The rows of a construction sequence, and the tables by which they are found. These keep their memory between maps.
#[derive(Drop)]
pub struct RowTables {
    /// The rows.
    pub rows: ConvexRows,
    // Which faces are left, by their numbers.
    pub(crate) marks: Vec<bool>,
    // The contour of these faces.
    pub(crate) contour: Contour,
    pub(crate) rims: ContourFaces,
    pub(crate) counts: ContourCounts,
    // Room for the cuts of a row.
    pub(crate) cuts: Vec<u16>,
}

// Appends `row`, an interval of the contour, with its `cuts` to `rows`.
fn push_row(rows: &mut ConvexRows, row: &[u16], cuts: &[u16]) -> Result<(), AllocError>
    ensures { IfOk result (λ _. (rows.new.rows ≡ rows.old.rows ++ row.now ∷ []) × (rows.new.cuts ≡ rows.old.cuts ++ cuts.now ∷ []) × (rows.new.news ≡ rows.old.news)) }
{
    rows.rows.push(row)?;
    rows.cuts.push(cuts)?;
    Ok(())
}

impl RowTables {
    /// Returns tables with no rows yet, for three-connected plane maps. They take no memory.
    pub fn new(alloc: Global) -> RowTables {
        RowTables {
            rows: ConvexRows {
                rows: ItemLists::new(alloc),
                cuts: ItemLists::new(alloc),
                news: ItemLists::new(alloc),
            },
            marks: Vec::new(alloc),
            contour: Contour::new(alloc),
            rims: ContourFaces::new(alloc),
            counts: ContourCounts::new(alloc),
            cuts: Vec::new(alloc),
        }
    }

    /// Resets the tables for a map: there is no row, each face has a mark, and nothing is noted or counted.
    pub(crate) fn clear(&mut self, tables: &Tables) -> Result<(), AllocError>
        ensures { IfOk result (λ _. IsBlank tables.now self.new) }
    {
        let count = tables.faces.count as usize;
        self.rows.rows.clear();
        self.rows.cuts.clear();
        self.rows.news.clear();
        refill(&mut self.marks, true, count)?;
        self.contour.clear();
        self.rims.clear(tables.lists.len())?;
        self.counts.clear(count)?;
        Ok(())
    }

    // Takes the vertices after index `first` up to `end` off the contour, and subtracts that interval from the counts.
    // Appends those before `end` as a list of new vertices, and returns the one at `end`.
    fn take_out(&mut self, tables: &Tables, first: usize, end: usize) -> Result<u16, AllocError>
        requires kept { IsKept tables.now self.old }
        requires order { first < end }
        requires within { end < length (vertices_of self.old.contour) }
        ensures out { IfOk result (λ x. IsTakenOut (vertices_of self.old.contour) self.new.contour.left.items self.new.contour.right.items x first end self.old.rows self.new.rows) }
        ensures counts { IfOk result (λ _. AreMoved tables.now.lists tables.now.faces.own tables.now.faces.count Goes (vertices_of self.old.contour) first end self.old.counts self.new.counts) }
        ensures marks { IfOk result (λ _. self.new.marks ≡ self.old.marks) }
        ensures rims { IfOk result (λ _. self.new.rims ≡ self.old.rims) }
    {
        self.contour.move_to(end + 1)?;
        let stretch = ContourInterval {
            tables,
            inner: &self.rims.inner,
            ws: &self.contour.left,
            first,
            last: end,
        };
        self.counts.move_part(Way::Goes, &stretch);
        let x = self.contour.left[end];
        self.rows
            .news
            .push(part(&self.contour.left, first + 1, end))?;
        self.contour.left.truncate(first + 1);
        Ok(x)
    }

    // Counts the contour interval from index `first` up to the current position, and appends it as a row with its cuts.
    fn put_in(&mut self, tables: &Tables, first: usize) -> Result<(), AllocError>
        requires rims { AreRims self.old.rims (length tables.now.lists) }
        requires inner { AreInner tables.now.lists tables.now.faces.own self.old.contour.left.items self.old.rims.inner.items }
        requires size { HaveSize self.old.counts tables.now.faces.count }
        requires order { suc first < length self.old.contour.left.items }
        requires few { length self.old.contour.left.items < 65536 }
        requires can { CanMoveAll tables.now.lists tables.now.faces.own tables.now.faces.count Comes self.old.contour.left.items first (length self.old.contour.left.items - 1) self.old.counts }
        ensures counts { IfOk result (λ _. AreMoved tables.now.lists tables.now.faces.own tables.now.faces.count Comes self.old.contour.left.items first (length self.old.contour.left.items - 1) self.old.counts self.new.counts) }
        ensures row { IfOk result (λ _. (count : ℕ) (cut : ℕ → ℕ) → AreCutPlaces (number_at self.old.rims.outer.items self.old.contour.left.items) first (length self.old.contour.left.items - 1) count cut → IsPutIn self.old.contour.left.items first (length self.old.contour.left.items - 1) count cut self.old.rows self.new.rows) }
        ensures marks { IfOk result (λ _. self.new.marks ≡ self.old.marks) }
        ensures rims { IfOk result (λ _. self.new.rims ≡ self.old.rims) }
        ensures contour { IfOk result (λ _. self.new.contour ≡ self.old.contour) }
    {
        let last = self.contour.left.len() - 1;
        let stretch = ContourInterval {
            tables,
            inner: &self.rims.inner,
            ws: &self.contour.left,
            first,
            last,
        };
        self.counts.move_part(Way::Comes, &stretch);
        put_cuts(&mut self.cuts, &self.rims.outer, &stretch)?;
        let row = part(&self.contour.left, first, last + 1);
        push_row(&mut self.rows, row, &self.cuts)?;
        Ok(())
    }

    // Completes a removal whose faces are unmarked already: takes the vertices strictly between indices `first` and
    // `end` off the contour, traces the new one there, and appends the row.
    fn advance(&mut self, tables: &Tables, first: usize, end: usize) -> Result<(), AllocError>
        requires kept { IsKept tables.now self.old }
        requires some { SomeOff tables.now.lists tables.now.faces.own self.old.marks.items tables.now.tail tables.now.head (vertices_of self.old.contour) first end }
        ensures list { IfOk result (λ _. (alive : ℕ → Bool) (w : ℕ → ℕ) (r : ℕ) (o : Removal) → IsOffAt tables.now.lists tables.now.faces.own self.old.marks.items tables.now.tail tables.now.head (vertices_of self.old.contour) first end alive w r o → IsListOf (vertices_of self.new.contour) o.contour o.places) }
        ensures row { IfOk result (λ _. (alive : ℕ → Bool) (w : ℕ → ℕ) (r : ℕ) (o : Removal) → IsOffAt tables.now.lists tables.now.faces.own self.old.marks.items tables.now.tail tables.now.head (vertices_of self.old.contour) first end alive w r o → IsRowMore tables.now.lists w o self.old.rows self.new.rows) }
        ensures kept { IfOk result (λ _. IsKept tables.now self.new) }
        ensures marks { IfOk result (λ _. self.new.marks ≡ self.old.marks) }
    {
        let x = self.take_out(tables, first, end)?;
        let map = Marked {
            tables,
            marks: &self.marks,
        };
        self.rims.trace(&mut self.contour.left, &map, x)?;
        self.put_in(tables, first)?;
        Ok(())
    }

    // Makes the next removal, which is not the last: chooses a vertex, unmarks its faces, traces the new contour and
    // appends the row. It fails only when out of memory.
    fn round(&mut self, tables: &Tables) -> Result<(), AllocError>
        requires kept { IsKept tables.now self.old }
        requires stands { (bound : ℕ) × StandsBy tables.now self.old bound }
        requires other { HasOther tables.now.lists tables.now.faces.own tables.now.tail tables.now.head (vertices_of self.old.contour) }
        ensures kept { IfOk result (λ _. IsKept tables.now self.new) }
        ensures stands { IfOk result (λ _. (bound : ℕ) → StandsBy tables.now self.old (suc bound) → StandsBy tables.now self.new bound) }
    {
        let choice = Choice {
            map: Marked {
                tables,
                marks: &self.marks,
            },
            counts: &self.counts,
        };
        choice.find(&mut self.contour)?;
        let edges = ContourEdges {
            tables,
            contour: &self.contour,
            inner: &self.rims.inner,
        };
        let (first, end) = edges.take_run(&mut self.marks);
        self.advance(tables, first, end)?;
        Ok(())
    }

    // Says whether `base`, the face inside the base edge, is inside all contour edges: just the last removal remains.
    fn is_last(&self, tables: &Tables, base: u32) -> bool
        requires kept { IsKept tables.now self.now }
        requires base { base ≡ entry tables.now.lists tables.now.faces.own tables.now.head tables.now.tail }
        requires base_in { base < tables.now.faces.count }
        ensures yes { IsTrue result → AllInner tables.now.lists tables.now.faces.own tables.now.tail tables.now.head (vertices_of self.now.contour) }
        ensures no { result ≡ false → HasOther tables.now.lists tables.now.faces.own tables.now.tail tables.now.head (vertices_of self.now.contour) }
    {
        let _tables = tables;
        usize::from(self.counts.edges[base as usize]) + 1 == self.contour.len()
    }

    // Makes one removal after another, to the last one, which removes all other vertices of the contour over the base.
    // It fails only when out of memory.
    fn peel(&mut self, tables: &Tables) -> Result<(), AllocError>
        requires kept { IsKept tables.now self.old }
        requires stands { StandsBy tables.now self.old (suc (dart_count tables.now.lists)) }
        ensures { IfOk result (λ _. AreRowsOfRun tables.now.lists tables.now.tail tables.now.head self.new.rows) }
    {
        let base = tables.number_of(tables.head, tables.tail);
        for _ in 0..tables.lists.total() {
            if self.is_last(tables, base) {
                let all = self.contour.len();
                self.contour.move_to(all)?;
                push_row(&mut self.rows, &[tables.head, tables.tail], &[0, 1])?;
                self.rows.news.push(part(&self.contour.left, 1, all - 1))?;
                return Ok(());
            }
            self.round(tables)?;
        }
        Ok(())
    }

    // Removes the face of the base alone, in blank tables, traces its contour, and counts it.
    fn first_contour(&mut self, tables: &Tables) -> Result<(), AllocError>
        requires blank { IsBlank tables.now self.old }
        ensures kept { IfOk result (λ _. IsKept tables.now self.new) }
        ensures right { IfOk result (λ _. self.new.contour.right.items ≡ []) }
        ensures rows { IfOk result (λ _. self.new.rows ≡ self.old.rows) }
        ensures shown { IfOk result (λ _. (alive : ℕ → Bool) (w : ℕ → ℕ) (r : ℕ) → IsFirst tables.now.lists tables.now.tail tables.now.head alive w r → IsShown tables.now.lists tables.now.faces.own self.new.marks.items tables.now.tail tables.now.head alive w r) }
        ensures list { IfOk result (λ _. (alive : ℕ → Bool) (w : ℕ → ℕ) (r : ℕ) → IsFirst tables.now.lists tables.now.tail tables.now.head alive w r → IsListOf self.new.contour.left.items w r) }
    {
        let f = tables.number_of(tables.tail, tables.head);
        self.marks[f as usize] = false;
        self.contour.left.push(tables.head)?;
        let map = Marked {
            tables,
            marks: &self.marks,
        };
        self.rims.trace(&mut self.contour.left, &map, tables.tail)?;
        self.counts
            .count_all(tables, &self.rims.inner, &self.contour.left);
        Ok(())
    }

    /// Makes all removals, in blank tables: the base's face, the vertex before the base with its faces, then others.
    pub(crate) fn put_all(&mut self, tables: &Tables) -> Result<(), AllocError>
        requires blank { IsBlank tables.now self.old }
        ensures { IfOk result (λ _. AreRowsOfRun tables.now.lists tables.now.tail tables.now.head self.new.rows) }
    {
        self.first_contour(tables)?;
        let r = self.contour.left.len() - 1;
        let v = self.contour.left[r - 1];
        clear_faces(&mut self.marks, tables.faces.own.list(v as usize));
        self.advance(tables, r - 2, r)?;
        self.peel(tables)?;
        Ok(())
    }
}
