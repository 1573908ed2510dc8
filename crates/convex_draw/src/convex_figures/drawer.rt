//! Convex figures of records, one after another, by `ConvexDrawer`, which keeps its tables from one to the next.
ghost use Rattle.std.specs.Prelude.{◌≡◌, ◌+◌, ◌*◌, ◌<◌, ◌≤◌, length, slice_index, sum_by, Some, IsTrue, IfOk, IfErr, OnOk};
ghost use Rattle.map_theory.specs.Maps.{IsSimpleMap, IsPlane, darts, list_of, face_count};
ghost use Rattle.simple_maps.specs.Tables.{AreTwins};
ghost use Rattle.refusals.specs.Conditions.{IfRefused};
ghost use Rattle.pg_plane.specs.declared.figures.GridFigure.{GridFigure as Figure};
ghost use Rattle.convex_peeling.specs.Polyhedral.{IsThreeConnected};
ghost use Rattle.convex_orders.specs.FaceNumbers.{AreFaceNumbers};
ghost use Rattle.convex_class.specs.Convexity.{BreaksConvex};
ghost use Rattle.convex_draw.specs.Figures.{IsConvexFigure};

use crate::convex_figures::draw::convex_figure;
use crate::convex_figures::face_numbers_by_twins::{NumberTables, numbers_again};
use crate::convex_points::{FaceRun, SpotTable, count_points_again};
use crate::map_drawing::in_square;
use conn_parts::{Parts, numbered_parts};
use convex_orders::{RowTables, Tables, rows_in_memory, tables_of};
use half_edges::{Rotations, VertexId};
use pg_plane::GridFigure;
use refusals::Unserved;
use simple_maps::fill_twins;
use std::alloc::{AllocError, Global};
use std::mem;

// The tables filled from the numbers of faces to the points: lists, rows of the construction sequence, and spots.
#[derive(Drop)]
struct PointTables {
    lists: Rotations,
    rows: RowTables,
    spots: SpotTable,
}

// All tables of a drawer. What they hold before a record says nothing.
#[derive(Drop)]
struct DrawTables {
    parts: Parts,
    // room for the search of components
    queue: Vec<u16>,
    faces: NumberTables,
    run: PointTables,
}

impl DrawTables {
    // Returns tables of no record. They take no memory.
    fn new(alloc: Global) -> DrawTables {
        DrawTables {
            parts: Parts::new(alloc),
            queue: Vec::new(alloc),
            faces: NumberTables::new(alloc),
            run: PointTables {
                lists: Rotations::new(alloc),
                rows: RowTables::new(alloc),
                spots: SpotTable::new(alloc),
            },
        }
    }
}

// Returns the number of `lists`.
fn count_of(lists: &Rotations) -> u16
    ensures { length lists.now ≡ result }
{
    lists.len() as u16
}

// Returns the figure of a three-connected map of genus zero over its base, the dart from vertex 0 to `t`, first of its
// list. `spent` has the numbers of the map's faces; the tables are returned too, for the next record.
fn run_again(
    alloc: Global,
    lists: &Rotations,
    t: u16,
    spent: DrawTables,
) -> Result<(GridFigure, DrawTables), AllocError>
    requires plane { IsPlane lists.now }
    requires three { IsThreeConnected lists.now }
    requires numbers { AreFaceNumbers lists.now spent.faces.numbers.own spent.faces.numbers.other spent.faces.numbers.count }
    requires count { spent.faces.numbers.count ≡ face_count lists.now }
    requires first { slice_index (list_of lists.now 0) 0 ≡ t }
    ensures { IfOk result (λ made. IsConvexFigure lists.now made.0) }
{
    lists.facts();
    let parts = spent.parts;
    let queue = spent.queue;
    let run = spent.run;
    let NumberTables {
        numbers,
        rank,
        arcs,
    } = spent.faces;
    let tables = tables_of(run.lists, lists, numbers, 0, t)?;
    let rows = rows_in_memory(run.rows, &tables)?;
    let side = tables.faces.count - 1;
    let made = FaceRun {
        rows: &rows.rows,
        d: VertexId(t),
        s: VertexId(0),
        count: count_of(lists),
        faces: side,
    };
    let (points, spots) = count_points_again(alloc, run.spots, &made)?;
    let figure = in_square(points, side);
    let Tables {
        lists: kept,
        faces: numbers,
        tail: _tail,
        head: _head,
    } = tables;
    let faces = NumberTables {
        numbers,
        rank,
        arcs,
    };
    let run = PointTables {
        lists: kept,
        rows,
        spots,
    };
    let tables = DrawTables {
        parts,
        queue,
        faces,
        run,
    };
    Ok((figure, tables))
}

// Says whether `lists` are at least four and have as many entries as a triangulation's. Only a yes is promised.
fn is_full(lists: &Rotations) -> bool
    ensures some { IsTrue result → 4 ≤ length lists.now }
    ensures full { IsTrue result → sum_by length lists.now + 12 ≡ 6 * length lists.now }
{
    lists.len() >= 4 && lists.total() == 6 * lists.len() - 12
}

// Says whether the components `parts` are one, and `faces` is a triangulation's face count. Only a yes is promised.
fn has_all(parts: &Parts, faces: u32, lists: &Rotations) -> bool
    ensures connected { IsTrue result → parts.now.count ≡ 1 }
    ensures faces { IsTrue result → faces + 4 ≡ 2 * length lists.now }
{
    parts.count() == 1 && faces as usize + 4 == 2 * lists.len()
}

// Returns the figure of a simple map with as many entries as a triangulation, or `None`, with no promise, where it is
// none. `twins` has for each dart the index of its twin. The tables are returned too, for the next record.
fn drawn(
    alloc: Global,
    lists: &Rotations,
    twins: &[u32],
    tables: DrawTables,
) -> Result<(Option<GridFigure>, DrawTables), AllocError>
    requires simple { IsSimpleMap lists.now }
    requires twins { AreTwins (darts lists.now) twins.now (length (darts lists.now)) }
    requires some { 4 ≤ length lists.now }
    requires full { sum_by length lists.now + 12 ≡ 6 * length lists.now }
    ensures { IfOk result (λ made. (figure : Figure) → made.0 ≡ Some figure → IsPlane lists.now × IsThreeConnected lists.now × IsConvexFigure lists.now figure) }
{
    if lists.list(0).is_empty() {
        return Ok((None, tables));
    }
    let t = lists.list(0)[0];
    let mut queue = tables.queue;
    let parts = numbered_parts(lists, tables.parts, &mut queue)?;
    let faces = numbers_again(tables.faces, lists, twins)?;
    let run = tables.run;
    if !has_all(&parts, faces.numbers.count, lists) {
        return Ok((
            None,
            DrawTables {
                parts,
                queue,
                faces,
                run,
            },
        ));
    }
    let spent = DrawTables {
        parts,
        queue,
        faces,
        run,
    };
    let (figure, tables) = run_again(alloc, lists, t, spent)?;
    Ok((Some(figure), tables))
}

/// Draws records, one after another, and keeps its tables for the next.
///
/// They take some fifty bytes for each dart of the largest record so far.
#[derive(Drop)]
pub struct ConvexDrawer {
    alloc: Global,
    tails: Vec<u16>,
    twins: Vec<u32>,
    threads: Vec<u32>,
    tables: DrawTables,
}

impl ConvexDrawer {
    /// Returns a drawer that has drawn nothing yet. It takes no memory.
    pub fn new(alloc: Global) -> ConvexDrawer {
        ConvexDrawer {
            alloc,
            tails: Vec::new(alloc),
            twins: Vec::new(alloc),
            threads: Vec::new(alloc),
            tables: DrawTables::new(alloc),
        }
    }

    /// Like `convex_figure`, returns the figure of the record `lists` or the condition that it breaks. After `NoMemory`
    /// the drawer can be used again.
    pub fn figure(&mut self, lists: &Rotations) -> Result<GridFigure, Unserved>
        requires some_list { 0 < length lists.now }
        ensures figure { IfOk result (IsConvexFigure lists.now) }
        ensures plane { OnOk result (IsPlane lists.now) }
        ensures served { OnOk result (IsThreeConnected lists.now) }
        ensures refused { IfErr result (IfRefused (BreaksConvex lists.now)) }
    {
        if !is_full(lists) {
            let figure = convex_figure(self.alloc, lists)?;
            return Ok(figure);
        }
        fill_twins(
            self.alloc,
            lists,
            &mut self.tails,
            &mut self.twins,
            &mut self.threads,
        )?;
        let tables = mem::replace(&mut self.tables, DrawTables::new(self.alloc));
        let (found, tables) = drawn(self.alloc, lists, &self.twins, tables)?;
        self.tables = tables;
        match found {
            Some(figure) => Ok(figure),
            None => convex_figure(self.alloc, lists),
        }
    }
}
