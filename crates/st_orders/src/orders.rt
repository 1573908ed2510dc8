//! The public calls that number the vertices in an st-order: `st_order`, `st_ranks`, `fill_places`.
ghost use Rattle.std.specs.Prelude.{◌≡◌, ◌<◌, ℕ, List, map, length, slice_index, Some, IfOk};
ghost use Rattle.map_theory.specs.Maps.{IsSimpleMap, HasDart, component_count};
ghost use Rattle.half_edges.specs.Map.{IsLive, dart_at};
ghost use Rattle.graph_search.specs.Forests.{IsForestOf};
ghost use Rattle.graph_search.specs.Lows.{AreLows};
ghost use Rattle.graph_search.specs.Cuts.{IsCutVertex};
ghost use Rattle.st_orders.specs.StOrders.{IsStOrder, IsStOrderOf};
ghost use Rattle.st_orders.specs.Placing.{ArePlaces};

use crate::place_ranges::{LowSearch, Ranges};
use graph_search::search_forests::{Forest, low_points, search_forest_along};
use half_edges::{Counts, DartId, HalfMap, Rotations, VertexId, VertexList};
use std::alloc::{AllocError, Global};

/// The vertices of a map in an order, and its inverse.
#[derive(Drop)]
pub struct StOrder {
    /// The vertices, one after another, all of them once.
    pub at: VertexList,
    /// For each vertex, by its number, its index in `at`, from 0.
    pub rank: Counts,
}

// Inverts the numbering `from` into `at`: writes each vertex `v` to `at[from[v]]`.
fn put_all(from: &[u16], at: &mut [u16])
    requires few { length from.now < 4096 }
    requires long { length at.old ≡ length from.now }
    requires within { (v : ℕ) → v < length from.now → slice_index from.now v < length from.now }
    requires apart { (u v : ℕ) → u < length from.now → v < length from.now → slice_index from.now u ≡ slice_index from.now v → u ≡ v }
    ensures { (v : ℕ) → v < length from.now → slice_index at.new (slice_index from.now v) ≡ v }
{
    for v in 0..from.len() {
        at[from[v] as usize] = v as u16;
    }
}

// Copies `numbers` into a list of counts. It fails only when out of memory.
fn counts_of(alloc: Global, numbers: &[u16]) -> Result<Counts, AllocError>
    ensures { IfOk result (λ counts. counts ≡ numbers.now) }
{
    let mut counts = Counts::with_capacity(alloc, numbers.len())?;
    for x in numbers {
        counts.push(u32::from(*x))?;
    }
    Ok(counts)
}

// Copies `numbers` into a list of vertices. It fails only when out of memory.
fn vertices_of(alloc: Global, numbers: &[u16]) -> Result<VertexList, AllocError>
    ensures { IfOk result (λ vertices. map (λ v. v.0) vertices ≡ numbers.now) }
{
    let mut vertices = VertexList::with_capacity(alloc, numbers.len())?;
    for x in numbers {
        vertices.push(VertexId(*x))?;
    }
    Ok(vertices)
}

/// Writes to `ranges.from` the place of each vertex in an st-order for the dart from `s` to `t` of `lists`, a connected
/// simple map without cut vertices. `forest` is a search from `s` that sees `t` next. `low` has for each vertex the
/// search number of its low point. It fails only when out of memory. The time is linear.
pub fn fill_places(
    ranges: &mut Ranges,
    lists: &Rotations,
    forest: &Forest,
    low: &[u16],
    s: u16,
    t: u16,
) -> Result<(), AllocError>
    requires simple { IsSimpleMap lists.now }
    requires connected { component_count lists.now ≡ 1 }
    requires uncut { (v : ℕ) → ¬ IsCutVertex lists.now v }
    requires dart { HasDart lists.now s t }
    requires forest { IsForestOf lists.now forest.now.order.items forest.now.number.items forest.now.last.items forest.now.parent.items }
    requires lows { AreLows lists.now forest.now.number.items forest.now.last.items low.now }
    requires first { slice_index forest.now.number.items s ≡ 0 }
    requires second { slice_index forest.now.number.items t ≡ 1 }
    ensures places { IfOk result (λ _. ArePlaces lists.now s t ranges.new.from.items) }
    ensures order { IfOk result (λ _. (at : List ℕ) × IsStOrder lists.now s t at ranges.new.from.items) }
{
    ranges.make_room(lists)?;
    let search = LowSearch { lists, forest, low };
    ranges.place_all(&search);
    Ok(())
}

// Returns an st-order for the dart from `s` to `t` of `lists`, as in `fill_places`. It fails only when out of memory.
fn list_order(alloc: Global, lists: &Rotations, s: u16, t: u16) -> Result<StOrder, AllocError>
    requires simple { IsSimpleMap lists.now }
    requires connected { component_count lists.now ≡ 1 }
    requires uncut { (v : ℕ) → ¬ IsCutVertex lists.now v }
    requires dart { HasDart lists.now s t }
    ensures { IfOk result (λ order. IsStOrderOf lists.now s t order) }
{
    let n = lists.len();
    let forest = search_forest_along(alloc, lists, s, t)?;
    let low = low_points(alloc, lists, &forest)?;
    let mut ranges = Ranges::new(alloc);
    fill_places(&mut ranges, lists, &forest, &low, s, t)?;
    let mut at = vec![in alloc; 0u16; n]?;
    put_all(&ranges.from, &mut at);
    Ok(StOrder {
        at: vertices_of(alloc, &at)?,
        rank: counts_of(alloc, &ranges.from)?,
    })
}

/// Like [`fill_places`], but returns the places alone, in memory of their own: entry v is the place of vertex v.
pub fn st_ranks(
    alloc: Global,
    lists: &Rotations,
    forest: &Forest,
    low: &[u16],
    s: u16,
    t: u16,
) -> Result<Counts, AllocError>
    requires simple { IsSimpleMap lists.now }
    requires connected { component_count lists.now ≡ 1 }
    requires uncut { (v : ℕ) → ¬ IsCutVertex lists.now v }
    requires dart { HasDart lists.now s t }
    requires forest { IsForestOf lists.now forest.now.order.items forest.now.number.items forest.now.last.items forest.now.parent.items }
    requires lows { AreLows lists.now forest.now.number.items forest.now.last.items low.now }
    requires first { slice_index forest.now.number.items s ≡ 0 }
    requires second { slice_index forest.now.number.items t ≡ 1 }
    ensures { IfOk result (λ rank. (at : List ℕ) × IsStOrder lists.now s t at rank) }
{
    let mut ranges = Ranges::new(alloc);
    fill_places(&mut ranges, lists, forest, low, s, t)?;
    let rank = counts_of(alloc, &ranges.from)?;
    Ok(rank)
}

/// Returns an st-order for the dart `st` of a connected `map` without cut vertices, in linear time. The dart's tail
/// stands first, its head last; each other vertex has an earlier and a later neighbour. Fails only when out of memory.
pub fn st_order(alloc: Global, map: &HalfMap, st: DartId) -> Result<StOrder, AllocError>
    requires connected { component_count map.now.lists ≡ 1 }
    requires uncut { (v : ℕ) → ¬ IsCutVertex map.now.lists v }
    requires live { IsLive map.now st.0 }
    ensures { IfOk result (λ order. (s t : ℕ) → dart_at map.now st.0 ≡ Some (s, t) → IsStOrderOf map.now.lists s t order) }
{
    let s = map.tail(st);
    let t = map.head(st);
    let lists = map.rotations(alloc)?;
    list_order(alloc, &lists, s.0, t.0)
}
