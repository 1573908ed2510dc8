//! The public call `schnyder_draw`: the drawing of a triangulation by the regions of a Schnyder wood.
ghost use Rattle.std.specs.Prelude.{◌≡◌, ◌-◌, ℕ, pos, IfOk};
ghost use Rattle.map_theory.specs.Maps.{Dart, HasDart, vertex_count};
ghost use Rattle.plane_laws.specs.Triangulations.{IsTriangulation};
ghost use Rattle.order_drawings.specs.SchnyderDrawings.{IsSchnyderDrawing};
ghost use Rattle.wood_laws.specs.Woods.{IsInner};
ghost use Rattle.wood_laws.specs.WoodRegionsLaws.{StandsAtCoordinates};
ghost use Rattle.schnyder_wood.specs.Parents.{parent_in, IsWoodOf};

use crate::fault::SchnyderFault;
use crate::order_of_wood::wood_order;
use grid_figures::schnyder_grid::wood_draw;
use half_edges::HalfMap;
use pg_plane::GridFigure;
use schnyder_wood::Wood;
use std::alloc::Global;

/// Returns the drawing of `tri` by the regions of `wood`, a Schnyder wood of it. `tri` is a triangulation: a simple map
/// of genus zero with n >= 3 vertices and 3n - 6 edges.
///
/// It is plane and keeps the rotations, in the grid n - 2 by n - 2. The coordinate of an inner vertex for a colour is
/// how many more vertices its region of this colour has than its path of the colour before. Those of colours one and
/// two are x and y. The roots stand at (n - 2, 1), (0, n - 2) and (1, 0). Of all faces that of the dart from root two
/// to root one alone is drawn clockwise.
///
/// It fails only when out of memory. The map and the wood stay as they are. The time is linear in the map. No region is
/// counted: the wood gives a canonical order, over which the coordinates are sums of few terms.
///
/// Source: Schnyder, Embedding planar graphs on the grid, 1990.
pub fn schnyder_draw(alloc: Global, tri: &HalfMap, wood: &Wood) -> Result<GridFigure, SchnyderFault>
    requires triangulation { IsTriangulation tri.now.lists }
    requires wood { (base : Dart) × HasDart tri.now.lists base.0 base.1 × IsWoodOf tri.now.lists base wood.now }
    ensures coordinates { IfOk result (λ figure. (base : Dart) (v : ℕ) → HasDart tri.now.lists base.0 base.1 → IsWoodOf tri.now.lists base wood.now → IsInner tri.now.lists base v
        → StandsAtCoordinates tri.now.lists base (parent_in wood.now) figure.points v) }
    ensures drawing { IfOk result (λ figure. (base : Dart) → HasDart tri.now.lists base.0 base.1 → IsWoodOf tri.now.lists base wood.now → IsSchnyderDrawing tri.now.lists base figure.points) }
    ensures width { IfOk result (λ figure. figure.width ≡ pos (vertex_count tri.now.lists - 2)) }
    ensures height { IfOk result (λ figure. figure.height ≡ pos (vertex_count tri.now.lists - 2)) }
{
    wood_laws::wood_orders::arranged_is_order();
    wood_laws::wood_orders::parents_of_arranged();
    wood_laws::wood_regions::drawn_at_coordinates();
    let order = wood_order(alloc, tri, wood)?;
    let figure = wood_draw(alloc, tri, &order)?;
    Ok(figure)
}
