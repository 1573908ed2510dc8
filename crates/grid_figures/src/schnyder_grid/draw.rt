//! The public calls that draw a triangulation by Schnyder's coordinates, and `WoodDrawer`, which keeps its memory.
ghost use Rattle.std.specs.Prelude.{◌≡◌, ◌<◌, ◌+◌, ◌*◌, ◌-◌, ℕ, length, replicate, All, OnOk, IfOk};
ghost use Rattle.map_theory.specs.Maps.{Dart};
ghost use Rattle.plane_laws.specs.Triangulations.{IsTriangulation};
ghost use Rattle.canon_order.specs.Orders.{IsCanonicalOrder, vertices_of};
ghost use Rattle.contour_runs.specs.Runs.{Step};
ghost use Rattle.order_drawings.specs.Rows.{AreAllRows};
ghost use Rattle.order_drawings.specs.SchnyderDrawings.{IsSchnyderOf};
ghost use Rattle.grid_figures.specs.Points.{ArePoints};

use crate::schnyder_grid::coordinate_gaps::wood_points;
use canon_order::Order;
use half_edges::{Counts, HalfMap, Rotations};
use order_drawings::order_tables::rows_into;
use pg_plane::{GridFigure, Points};
use std::alloc::{AllocError, Global};
use std::mem;

/// Draws by Schnyder's coordinates, one triangulation after another, and keeps its memory for the next: some bytes for
/// each vertex of the largest one so far.
#[derive(Drop)]
pub struct WoodDrawer {
    alloc: Global,
    // the drops of all vertices, then the rises of all, and then their spans
    gaps: Vec<u32>,
    covers: Vec<u16>,
    rows: Rotations,
    spent: Points,
}

impl WoodDrawer {
    /// Returns a drawer that has drawn nothing yet. It takes no memory.
    pub fn new(alloc: Global) -> WoodDrawer {
        WoodDrawer {
            alloc,
            gaps: Vec::new(alloc),
            covers: Vec::new(alloc),
            rows: Rotations::new(alloc),
            spent: Points::new(alloc),
        }
    }

    // Sets `self.gaps` to `3 * n` zeros and makes `self.covers` `n` entries long. It fails only when out of memory.
    fn clear(&mut self, n: usize) -> Result<(), AllocError>
        requires { n < 4096 }
        ensures gaps { OnOk result (self.new.gaps.items ≡ replicate (3 * n) 0) }
        ensures covers { OnOk result (length self.new.covers.items ≡ n) }
    {
        self.gaps.clear();
        self.gaps.resize(3 * n, 0)?;
        self.covers.resize(n, 0)?;
        Ok(())
    }

    // Returns Schnyder's coordinates of all vertices. List k of `rows` is the contour interval under the vertex of rank
    // k + 2, as ranks; `ranks` has each vertex's rank. It overwrites the tables, and fails only when out of memory.
    fn points(&mut self, rows: &Rotations, ranks: &Counts) -> Result<Points, AllocError>
        requires few { length ranks.now < 4096 }
        requires rows { length rows.now + 2 ≡ length ranks.now }
        requires ranks { All (λ k. k < length ranks.now) ranks.now }
        requires run { (steps : ℕ → Step) × AreAllRows steps rows.now }
        ensures { IfOk result (λ points. (steps : ℕ → Step) → AreAllRows steps rows.now → ArePoints steps (length rows.now) ranks.now points) }
    {
        let n = ranks.len();
        self.clear(n)?;
        let spent = mem::replace(&mut self.spent, Points::new(self.alloc));
        let (drops, others) = self.gaps.split_at_mut(n);
        let (rises, spans) = others.split_at_mut(n);
        let points = wood_points(spent, drops, rises, spans, &mut self.covers, rows, ranks)?;
        Ok(points)
    }

    /// Keeps the memory of `figure`, which is no longer needed, for the next one.
    pub fn keep(&mut self, figure: GridFigure) {
        self.spent = figure.points;
    }

    /// Draws the triangulation with these `lists` by its canonical `order`, as [`wood_draw`] does. When memory runs out
    /// the drawer can be used again.
    pub fn list_draw(&mut self, lists: &Rotations, order: &Order) -> Result<GridFigure, AllocError>
        requires triangulation { IsTriangulation lists.now }
        requires order { (base : Dart) × IsCanonicalOrder lists.now base (vertices_of order.now) }
        ensures { IfOk result (IsSchnyderOf lists.now (vertices_of order.now)) }
    {
        order_drawings::order_tables::ranks_are_places();
        order_drawings::order_runs::order_is_run();
        order_drawings::schnyder_drawings::wood_points_draw();
        let side = (lists.len() - 2) as i32;
        let spent = mem::replace(&mut self.rows, Rotations::new(self.alloc));
        let rows = rows_into(spent, lists, order)?;
        let points = self.points(&rows, &order.rank)?;
        self.rows = rows;
        Ok(GridFigure {
            points,
            width: side,
            height: side,
        })
    }
}

/// Returns the drawing of `tri` by Schnyder's coordinates over its canonical `order`. `tri` is a triangulation: a
/// simple map of genus zero with n >= 3 vertices and 3n - 6 edges.
///
/// It is plane and keeps the rotations, in the grid n - 2 by n - 2. The order's first vertex stands at (n - 2, 1), its
/// second at (0, n - 2) and its last at (1, 0). Of all faces that of the base alone is drawn clockwise.
///
/// It fails only when out of memory. The map and the order stay as they are. The time is linear in the vertices. Each
/// vertex is put over an interval of the contour, and how far the vertices under it stand from it is kept. These
/// differences are added up at the end.
///
/// Source: Schnyder, Embedding planar graphs on the grid, 1990.
pub fn wood_draw(alloc: Global, tri: &HalfMap, order: &Order) -> Result<GridFigure, AllocError>
    requires triangulation { IsTriangulation tri.now.lists }
    requires order { (base : Dart) × IsCanonicalOrder tri.now.lists base (vertices_of order.now) }
    ensures { IfOk result (IsSchnyderOf tri.now.lists (vertices_of order.now)) }
{
    let lists = tri.rotations(alloc)?;
    let mut woods = WoodDrawer::new(alloc);
    let figure = woods.list_draw(&lists, order)?;
    Ok(figure)
}
