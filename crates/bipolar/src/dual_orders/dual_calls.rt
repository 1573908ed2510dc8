//! The public calls that number the dual of an st-order, by longest paths over the faces from left to right.
ghost use Rattle.std.specs.Prelude.{◌≡◌, ◌<◌, ◌^◌, ℕ, length, slice_index, Some, IfOk, MatchResult};
ghost use Rattle.map_theory.specs.Maps.{IsPlane, component_count};
ghost use Rattle.half_edges.specs.Map.{IsHalfMap, IsLive, dart_at};
ghost use Rattle.euler_faces.specs.FaceWalks.{AreFaces};
ghost use Rattle.st_orders.specs.StOrders.{IsStOrderOf};
ghost use Rattle.bipolar.specs.DualNumbers.{AreDualNumbers};
ghost use Rattle.bipolar.specs.FaceArcs.{AreNumberRows};
ghost use Rattle.bipolar.specs.Columns.{AreColumns};
ghost use Rattle.bipolar.specs.Numbered.{IsStOf, GiveDualNumbers};

use crate::dual_orders::dual_arcs::face_arcs;
use crate::dual_orders::edge_order::edge_columns;
use crate::dual_orders::left_face_rows::NumberedMap;
use euler_faces::faces;
use graph_search::longest_paths::longest_paths;
use half_edges::{Counts, DartId, HalfMap};
use map_lists::ItemLists;
use st_orders::StOrder;
use std::alloc::{AllocError, Global};

/// Returns for each vertex the dual numbers of its edges (longest-path numbers of the faces on their left), in the
/// order of its list. `rank` has each vertex's rank in an st-order for the dart `st` of `map`, connected and of genus
/// zero. `edge_columns` puts the numbers into the order of edges. It fails only when out of memory.
pub fn rank_rows(
    alloc: Global,
    map: &HalfMap,
    rank: &Counts,
    st: DartId,
) -> Result<ItemLists<u32>, AllocError>
    requires live { IsLive map.now st.0 }
    requires order { IsStOf map.now rank.now st.0 }
    ensures { IfOk result (GiveDualNumbers map.now rank.now st.0) }
{
    let faces = faces(alloc, map)?;
    let arcs = face_arcs(alloc, map, rank, &faces)?;
    let numbers = longest_paths(alloc, &arcs, faces.of_dart(st).0)?;
    let numbered = NumberedMap {
        map,
        rank,
        faces: &faces,
        numbers: &numbers,
    };
    let rows = numbered.number_rows(alloc)?;
    Ok(rows)
}

/// Like [`rank_rows`], but takes the st-order `order` instead of its ranks. It fails only when out of memory.
pub fn dual_rows(
    alloc: Global,
    map: &HalfMap,
    order: &StOrder,
    st: DartId,
) -> Result<ItemLists<u32>, AllocError>
    requires live { IsLive map.now st.0 }
    requires plane { IsPlane map.now.lists }
    requires connected { component_count map.now.lists ≡ 1 }
    requires order { (s t : ℕ) → dart_at map.now st.0 ≡ Some (s, t) → IsStOrderOf map.now.lists s t order.now }
    ensures { IfOk result (GiveDualNumbers map.now order.now.rank st.0) }
{
    let rows = rank_rows(alloc, map, &order.rank, st)?;
    Ok(rows)
}

/// Returns the dual number of each edge by the st-order `order`, for the dart `st`, of a connected `map` of genus zero.
/// Edges are sorted by lesser and then greater end. Time and memory are linear. It fails only when out of memory.
pub fn dual_numbers(
    alloc: Global,
    map: &HalfMap,
    order: &StOrder,
    st: DartId,
) -> Result<Counts, AllocError>
    requires live { IsLive map.now st.0 }
    requires plane { IsPlane map.now.lists }
    requires connected { component_count map.now.lists ≡ 1 }
    requires order { (s t : ℕ) → dart_at map.now st.0 ≡ Some (s, t) → IsStOrderOf map.now.lists s t order.now }
    ensures { IfOk result (λ columns. (s t : ℕ) → dart_at map.now st.0 ≡ Some (s, t) → AreDualNumbers map.now.lists order.now.rank s t columns) }
{
    let rows = dual_rows(alloc, map, order, st)?;
    let lists = map.rotations(alloc)?;
    let columns = edge_columns(alloc, &lists, &rows, map.m())?;
    Ok(columns)
}
