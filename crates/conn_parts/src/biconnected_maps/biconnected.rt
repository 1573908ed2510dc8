//! The calls that make the biconnected map of a record, with the depth-first search that shows it to be one.
ghost use Rattle.std.specs.Prelude.{◌≡◌, ◌<◌, length, slice_index, IfOk, IfErr};
ghost use Rattle.map_theory.specs.Maps.{IsSimpleMap, list_of};
ghost use Rattle.refusals.specs.Conditions.{IfRefused};
ghost use Rattle.graph_search.specs.Forests.{IsForestOf};
ghost use Rattle.conn_parts.specs.BiconnectedMaps.{IsBiconnectedMap, BreaksFirst};
ghost use Rattle.conn_parts.specs.Searched.{IsSearchOf, IsFirstSearch};

use crate::CountedMaker;
use graph_search::list_cuts::searched_cut_vertex;
use graph_search::search_forests::{Forest, low_points, search_forest, search_forest_along};
use half_edges::{HalfMap, Rotations, VertexId};
use refusals::{Refusal, Unserved};
use std::alloc::{AllocError, Global};

/// A biconnected map with the search by which it was found to be one. An edit of the map leaves the search as it was.
#[derive(Drop)]
pub struct SearchedMap {
    /// The map.
    pub map: HalfMap,
    /// A search of its lists from vertex 0, to the first of its list next.
    pub forest: Forest,
    /// The low points of the search.
    pub low: Vec<u16>,
}

// Returns the forest of a depth-first search of a simple map's `lists` from vertex 0, along the first dart of its list.
fn first_search(alloc: Global, lists: &Rotations) -> Result<Forest, AllocError>
    requires simple { IsSimpleMap lists.now }
    requires some { 0 < length lists.now }
    ensures forest { IfOk result (λ f. IsForestOf lists.now f.order.items f.number.items f.last.items f.parent.items) }
    ensures first { IfOk result (λ f. IsFirstSearch lists.now f.number.items) }
{
    let list = lists.list(0);
    if list.len() == 0 {
        search_forest(alloc, lists)
    } else {
        search_forest_along(alloc, lists, 0, list[0])
    }
}

/// Returns the map of a record with these `lists`, from 1 to 4095 of them, and a depth-first search of the lists. The
/// map has genus zero and at least `least` vertices, is connected and has no cut vertex.
///
/// `Err` names the first condition that the lists break, in the order of [`Refusal`], with the least
/// vertices. Or there was not enough memory. The time is linear in the entries.
pub fn searched_map(alloc: Global, lists: &Rotations, least: u16) -> Result<SearchedMap, Unserved>
    requires some_list { 0 < length lists.now }
    ensures lists { IfOk result (λ found. found.map.lists ≡ lists.now) }
    ensures search { IfOk result (λ found. IsSearchOf lists.now found.forest.order.items found.forest.number.items found.forest.last.items found.forest.parent.items found.low.items) }
    ensures served { IfOk result (λ found. IsBiconnectedMap least lists.now) }
    ensures refused { IfErr result (IfRefused (BreaksFirst least lists.now)) }
{
    let mut maker = CountedMaker::new(alloc);
    let map = maker.plane_half_map(lists, least)?;
    if maker.parts.count() != 1 {
        return Err(Unserved::Refused(Refusal::NotConnected));
    }
    let forest = first_search(alloc, lists)?;
    let low = low_points(alloc, lists, &forest)?;
    match searched_cut_vertex(lists, &forest, &low) {
        Some(v) => Err(Unserved::Refused(Refusal::CutVertex(VertexId(v)))),
        None => Ok(SearchedMap { map, forest, low }),
    }
}

/// Returns the map that [`searched_map`] gives, without the search.
pub fn biconnected_map(alloc: Global, lists: &Rotations, least: u16) -> Result<HalfMap, Unserved>
    requires some_list { 0 < length lists.now }
    ensures lists { IfOk result (λ map. map.lists ≡ lists.now) }
    ensures served { IfOk result (λ map. IsBiconnectedMap least lists.now) }
    ensures refused { IfErr result (IfRefused (BreaksFirst least lists.now)) }
{
    let found = searched_map(alloc, lists, least)?;
    Ok(found.map)
}
