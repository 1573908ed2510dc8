//! The public calls that draw triangulations by the shift method, and `Shifter`, which keeps its memory between them.
ghost use Rattle.std.specs.Prelude.{◌≡◌, ◌<◌, length, IfOk};
ghost use Rattle.map_theory.specs.Maps.{Dart};
ghost use Rattle.plane_laws.specs.Triangulations.{IsTriangulation};
ghost use Rattle.canon_order.specs.Orders.{IsCanonicalOrder, vertices_of};
ghost use Rattle.fpp_shift.specs.ShiftDrawings.{AreShiftPoints, IsShiftOf};

use crate::fault::ShiftFault;
use crate::offset_trees::{Node, Offsets, SumMemory};
use crate::shift_trees::list_tree;
use canon_order::Order;
use half_edges::{HalfMap, Rotations};
use pg_io::Steps;
use pg_plane::{GridFigure, Points};
use std::alloc::{AllocError, Global};
use std::marker::Brand;
use std::mem;
use std::sync::ledger::{Blank, Ledger};

/// Returns the drawing of `tri` by the shift method, for its canonical `order`. `tri` is a triangulation: a simple map
/// of genus zero with n >= 3 vertices and 3n - 6 edges.
///
/// It is plane and keeps the rotations, in the grid 2n - 4 by n - 2. The order's first vertex stands at (0, 0), its
/// second at (2n - 4, 0) and its last at (n - 2, n - 2). Of all faces that of the base alone is drawn clockwise.
///
/// It fails only when out of memory. The map and the order stay as they are. The time is linear in the
/// vertices: a tree of offsets is made of the order, and added up.
///
/// Source: de Fraysseix, Pach, Pollack, How to draw a planar graph on a grid, 1990; the offsets: Chrobak,
/// Payne, A linear-time algorithm for drawing a planar graph on a grid, 1995.
pub fn shift_draw(alloc: Global, tri: &HalfMap, order: &Order) -> Result<GridFigure, ShiftFault>
    requires triangulation { IsTriangulation tri.now.lists }
    requires order { (base : Dart) × IsCanonicalOrder tri.now.lists base (vertices_of order.now) }
    ensures { IfOk result (IsShiftOf tri.now.lists (vertices_of order.now)) }
{
    let lists = tri.rotations(alloc)?;
    let mut shifter = Shifter::new(alloc);
    let figure = shifter.list_draw(&lists, order)?;
    Ok(figure)
}

/// Draws by the shift method, one triangulation after another, and keeps its memory for the next: some bytes for each
/// vertex of the largest one so far.
#[derive(Drop)]
pub struct Shifter {
    alloc: Global,
    nodes: Vec<Node>,
    sums: SumMemory,
}

impl Shifter {
    /// Returns a shifter that has drawn nothing yet. It takes no memory.
    pub fn new(alloc: Global) -> Shifter {
        Shifter {
            alloc,
            nodes: Vec::new(alloc),
            sums: SumMemory::new(alloc),
        }
    }

    // Returns a tree of `n` nodes of any content, in the memory of `self.nodes`. It fails only when out of memory.
    fn tree<L: Ledger>(&mut self, n: usize) -> Result<Offsets<L>, AllocError>
        requires { n < 65536 }
        ensures { IfOk result (λ tree. length tree ≡ n) }
    {
        let node = Node {
            x: 0,
            y: 0,
            left: None,
            right: None,
        };
        self.nodes.resize(n, node)?;
        let nodes = mem::replace(&mut self.nodes, Vec::new(self.alloc));
        Ok(Offsets::from_nodes(nodes))
    }

    // Returns the points of the shift method for the triangulation `lists` and its canonical `order`. `blank` is a
    // fresh ledger of brand `L` with one part or more, by which uses of the tree of offsets are counted.
    fn points<L: Ledger>(
        &mut self,
        lists: &Rotations,
        order: &Order,
        blank: Blank,
    ) -> Result<Points, AllocError>
        requires name { blank.name ≡ L.name }
        requires parts { blank.parts ≡ L.parts }
        requires some { 0 < blank.parts }
        requires triangulation { IsTriangulation lists.now }
        requires order { (base : Dart) × IsCanonicalOrder lists.now base (vertices_of order.now) }
        ensures { IfOk result (λ points. (base : Dart) (canonical : IsCanonicalOrder lists.now base (vertices_of order.now))
            → AreShiftPoints lists.now base (vertices_of order.now) canonical.cycle points) }
    {
        order_drawings::order_runs::order_is_run();
        crate::shift_trees::offset_tree_adds_up();
        let mut steps: Steps<L> = Steps::new(blank);
        let mut tree: Offsets<L> = self.tree(lists.len())?;
        list_tree(lists, order, &mut tree, &mut steps);
        let points = self.sums.sum_offsets(&tree, order.at.get(0), &mut steps)?;
        self.nodes = tree.into_nodes();
        Ok(points)
    }

    /// Keeps the memory of `figure`, which is no longer needed, for the next one.
    pub fn keep(&mut self, figure: GridFigure) {
        self.sums.keep(figure.points);
    }

    /// Draws the triangulation with these `lists` by its canonical `order`, as [`shift_draw`] does. When memory runs
    /// out the shifter can be used again.
    pub fn list_draw(&mut self, lists: &Rotations, order: &Order) -> Result<GridFigure, AllocError>
        requires triangulation { IsTriangulation lists.now }
        requires order { (base : Dart) × IsCanonicalOrder lists.now base (vertices_of order.now) }
        ensures { IfOk result (IsShiftOf lists.now (vertices_of order.now)) }
    {
        crate::shift_drawings::shift_points_draw();
        let count = lists.len();
        let points = self.points::<Brand>(lists, order, Blank::new(1))?;
        Ok(GridFigure {
            points,
            width: (2 * count - 4) as i32,
            height: (count - 2) as i32,
        })
    }
}
