//! A canonical order found from a Schnyder wood.
ghost use Rattle.std.specs.Prelude.{◌≡◌, ◌<◌, ℕ, All, reverse, IfOk};
ghost use Rattle.map_theory.specs.Maps.{Dart, HasDart};
ghost use Rattle.plane_laws.specs.Triangulations.{IsTriangulation};
ghost use Rattle.canon_order.specs.Orders.{vertices_of};
ghost use Rattle.schnyder_wood.specs.Parents.{parent_in, IsWoodOf};
ghost use Rattle.wood_laws.specs.Arranged.{IsArranged};

use crate::order_arcs::wood_arcs;
use canon_order::{Order, reversed_order};
use graph_search::longest_paths::topological_order;
use half_edges::HalfMap;
use schnyder_wood::{Colour, Wood};
use std::alloc::{AllocError, Global};

// Returns the vertices of `order` from the last to the first. It fails only when out of memory.
fn turned(alloc: Global, order: &[u32]) -> Result<Vec<u16>, AllocError>
    requires { All (λ v. v < 4096) order.now }
    ensures { IfOk result (λ taken. taken.items ≡ reverse order.now) }
{
    let mut taken = Vec::new(alloc);
    for v in order.iter().rev() {
        taken.push(*v as u16)?;
    }
    Ok(taken)
}

/// Returns a canonical order of the triangulation `tri` whose Schnyder wood is `wood`, a wood of `tri`. Root one is
/// first, root two second and root three last. Each other vertex comes after its parents of colours one and two and
/// before that of colour three.
///
/// It fails only when out of memory. The map and the wood stay as they are. The time is linear in the map.
pub fn wood_order(alloc: Global, tri: &HalfMap, wood: &Wood) -> Result<Order, AllocError>
    requires triangulation { IsTriangulation tri.now.lists }
    requires wood { (base : Dart) × HasDart tri.now.lists base.0 base.1 × IsWoodOf tri.now.lists base wood.now }
    ensures arranged { IfOk result (λ order. (base : Dart) → HasDart tri.now.lists base.0 base.1 → IsWoodOf tri.now.lists base wood.now → IsArranged tri.now.lists base (parent_in wood.now) (vertices_of order)) }
{
    wood_laws::wood_orders::some_arranged();
    let lists = tri.rotations(alloc)?;
    let arcs = wood_arcs(alloc, &lists, wood)?;
    let order = topological_order(alloc, &arcs, wood.root(Colour::One).0 as u32)?;
    let taken = turned(alloc, &order)?;
    reversed_order(alloc, &taken)
}
