//! A construction sequence as the type `FaceRun`: its rows, its base, and how many vertices and faces it makes.
ghost use Rattle.std.specs.Prelude.{◌<◌};

use convex_laws::convex_rows::ConvexRows;
use map_lists::VertexId;

/// A run from a base: its rows, the ends of the base, and how many vertices and faces it makes.
#[derive(Clone, Copy)]
pub struct FaceRun<'a> {
    pub rows: &'a ConvexRows,
    /// The vertex that the base leads to.
    pub d: VertexId,
    /// The vertex that it leaves.
    pub s: VertexId,
    /// How many vertices there are.
    pub count: u16,
    /// How many faces there are without that of the base.
    pub faces: u32,
    pub ghost few: { faces < 1048576 },
}
