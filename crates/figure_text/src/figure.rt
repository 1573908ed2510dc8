//! The kinds of figure that a text may hold, as the types `Figure` and `GridJob`.

use graphs::Graph;
use kuratowski::Witness;
use map_lists::Rotations;
use pg_plane::{BarFigure, Points, RectFigure};

/// The method by which a straight-line drawing was made.
#[derive(Clone, Copy, PartialEq, Eq)]
pub enum GridJob {
    /// The shift method.
    Shift,
    /// Schnyder's method.
    Schnyder,
    /// Convex drawings by counts of faces.
    Convex,
}

/// A drawing of a map, with the map's rotation lists, numbered from 0; or a witness that a graph has no plane drawing.
#[derive(Drop)]
pub enum Figure {
    /// A straight-line drawing.
    Grid {
        /// How it was made.
        job: GridJob,
        /// The neighbours of each vertex in clockwise order.
        lists: Rotations,
        /// The point of each vertex.
        points: Points,
    },
    /// A visibility drawing.
    Bars {
        /// The neighbours of each vertex in clockwise order.
        lists: Rotations,
        /// The bar of each vertex, and the column of each edge.
        bars: BarFigure,
    },
    /// A rectangular dual.
    Rects {
        /// The neighbours of each vertex in clockwise order.
        lists: Rotations,
        /// The rectangle of each vertex.
        rects: RectFigure,
    },
    /// A subdivision of K5 or K3,3 in a graph.
    Witness {
        /// The graph.
        graph: Graph,
        /// The branches and paths.
        witness: Witness,
    },
}
