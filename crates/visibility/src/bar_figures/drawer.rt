//! `BarDrawer`: visibility drawings of records, one after another, in tables that are kept.
ghost use Rattle.std.specs.Prelude.{◌≡◌, ◌<◌, ◌≤◌, ◌^◌, ℕ, map, pos, length, slice_index, Some, IsTrue, IfOk, IfErr, OnOk};
ghost use Rattle.map_theory.specs.Maps.{IsSimpleMap, HasDart, darts, list_of, component_count};
ghost use Rattle.simple_maps.specs.Tables.{AreTwins};
ghost use Rattle.refusals.specs.Conditions.{IfRefused};
ghost use Rattle.pg_plane.specs.declared.figures.BarFigure.{BarFigure as Figure};
ghost use Rattle.bipolar.specs.FaceNumbers.{AreFaceNumbers, AreFaceArcs};
ghost use Rattle.conn_parts.specs.BiconnectedMaps.{IsBiconnectedMap, BreaksFirst};
ghost use Rattle.visibility.specs.Figures.{IsBarFigure, IsSearchFrom, IsUncutSearch};
ghost use Rattle.visibility.specs.Found.{IsRooted, IsFound};

use crate::bar_ends::{coordinate, size_ends};
use crate::bar_figures::record_figure::bar_figure;
use crate::column_pass::{Sides, SpanTables};
use bipolar::dual_orders::{FaceTables, number_faces};
use conn_parts::plane_count;
use euler_faces::Counter;
use graph_search::list_cuts::{is_uncut, list_cut_vertex, searched_cut_vertex};
use graph_search::longest_paths::PathTables;
use graph_search::search_forests::{Forest, SearchTables};
use half_edges::{Rotations, VertexId};
use pg_plane::{BarFigure, Ints};
use refusals::{Refusal, Unserved, no_refusal_is_plane};
use simple_maps::fill_twins;
use st_orders::{Ranges, fill_places};
use std::alloc::{AllocError, Global};
use std::mem;

// The tables from an st-order to the columns of edges.
#[derive(Drop)]
struct DualTables {
    ranges: Ranges,
    faces: FaceTables,
    paths: PathTables,
    spans: SpanTables,
    // the heights of bars
    y: Vec<i32>,
}

// The tables of a search and of the drawing after it. What they hold before a record does not matter.
#[derive(Drop)]
struct Tables {
    search: SearchTables,
    dual: DualTables,
}

// A map by its lists and the twins of its darts, with the first neighbour of vertex 0.
#[derive(Clone, Copy)]
struct Rooted<'a> {
    lists: &'a Rotations,
    twins: &'a [u32],
    t: u16,
    ghost rooted: { ∥ IsRooted lists.now twins.now t ∥₁ },
}

impl Rooted<'_> {
    // Does nothing. By its contract a proof learns what holds of the map.
    fn facts(&self)
        ensures { IsRooted self.now.lists.now self.now.twins.now self.now.t }
    {}
}

// Returns true only if the search `forest` saw all vertices before it ended vertex 0, so that the map is connected.
fn sees_all(forest: &Forest) -> bool
    requires some { 0 < length forest.now.last.items }
    ensures { IsTrue result → slice_index forest.now.last.items 0 ≡ length forest.now.last.items }
{
    forest.last[0] as usize == forest.last.len()
}

// Numbers the faces of `map` into `tables`, with an arc from the left to the right face of each edge, as directed to
// its end of higher `rank`. It fails only when out of memory.
fn number_faces_into(
    tables: &mut FaceTables,
    alloc: Global,
    map: &Rooted<'_>,
    rank: &[u16],
) -> Result<(), AllocError>
    requires { length rank.now ≡ length map.now.lists.now }
    ensures numbers { IfOk result (λ _. AreFaceNumbers map.now.lists.now tables.new.of.items (length tables.new.arcs)) }
    ensures arcs { IfOk result (λ _. AreFaceArcs map.now.lists.now rank.now tables.new.of.items (length tables.new.arcs) tables.new.arcs) }
    ensures few { IfOk result (λ _. length tables.new.arcs < 2 ^ 32) }
{
    map.facts();
    let spent = mem::replace(tables, FaceTables::new(alloc));
    let made = number_faces(
        spent,
        map.lists.entries(),
        map.lists.ends(),
        map.twins,
        rank,
    )?;
    *tables = made;
    Ok(())
}

// Returns the first entry of `numbers`, of which there is one.
fn first_of(numbers: &[u32]) -> u32
    requires { 0 < length numbers.now }
    ensures { result ≡ slice_index numbers.now 0 }
{
    numbers[0]
}

// Writes to `made` for each vertex its height, which is its `rank`.
fn put_heights(made: &mut [i32], rank: &[u16])
    requires { length made.old ≡ length rank.now }
    ensures { made.new ≡ map pos rank.now }
{
    for i in 0..rank.len() {
        made[i] = coordinate(rank[i] as u32);
    }
}

// Makes `made` a table of each vertex's height, which is its `rank`. It fails only when out of memory.
fn fill_heights(made: &mut Vec<i32>, rank: &[u16]) -> Result<(), AllocError>
    ensures { IfOk result (λ _. made.new.items ≡ map pos rank.now) }
{
    size_ends(made, rank.len())?;
    put_heights(made, rank);
    Ok(())
}

// Moves the numbers out of `table`, which is then empty.
fn taken(alloc: Global, table: &mut Vec<i32>) -> Ints
    ensures { result ≡ table.old.items }
{
    Ints::from_vec(mem::replace(table, Vec::new(alloc)))
}

// The answer for a map by its lists, twins and search, as far as it is found.
enum Found {
    // its figure
    Drawn(BarFigure),
    // its least cut vertex, by which it is refused
    Cut(VertexId),
    // nothing that is known to be its answer
    Nothing,
}

impl DualTables {
    // Returns the tables of no record. They take no memory.
    fn new(alloc: Global) -> DualTables {
        DualTables {
            ranges: Ranges::new(alloc),
            faces: FaceTables::new(alloc),
            paths: PathTables::new(alloc),
            spans: SpanTables::new(alloc),
            y: Vec::new(alloc),
        }
    }

    // Draws a connected `map` without cut vertex by a `search` of it from vertex 0. Returns `Drawn` with the figure, or
    // `Nothing`, which promises nothing, where the genus is not zero. It fails only when out of memory.
    fn draw(
        &mut self,
        alloc: Global,
        map: &Rooted<'_>,
        search: &SearchTables,
    ) -> Result<Found, AllocError>
        requires { IsUncutSearch map.now.lists.now map.now.t search.now.forest.order.items search.now.forest.number.items search.now.forest.last.items search.now.forest.parent.items search.now.low.items }
        ensures { IfOk result (IsFound map.now.lists.now) }
    {
        map.facts();
        fill_places(
            &mut self.ranges,
            map.lists,
            &search.forest,
            &search.low,
            0,
            map.t,
        )?;
        number_faces_into(&mut self.faces, alloc, map, &self.ranges.from)?;
        if map.lists.len() + self.faces.arcs.len() != map.twins.len() / 2 + 2 {
            return Ok(Found::Nothing);
        }
        let base = first_of(&self.faces.of);
        self.paths.find(alloc, &self.faces.arcs, base)?;
        let sides = Sides {
            lists: map.lists,
            rank: &self.ranges.from,
            of: &self.faces.of,
            twins: map.twins,
            numbers: &self.paths.number,
        };
        self.spans.fill(&sides)?;
        fill_heights(&mut self.y, &self.ranges.from)?;
        let y = taken(alloc, &mut self.y);
        let column = taken(alloc, &mut self.spans.columns);
        let x1 = taken(alloc, &mut self.spans.x1);
        let x2 = taken(alloc, &mut self.spans.x2);
        Ok(Found::Drawn(BarFigure { y, x1, x2, column }))
    }

    // Finds the least cut vertex of a connected `map` by a `search` of it from vertex 0. Returns `Cut` with it, or
    // `Nothing`, which promises nothing, if there is none or the genus is not zero. It fails only when out of memory.
    fn cut(
        &mut self,
        alloc: Global,
        map: &Rooted<'_>,
        search: &SearchTables,
    ) -> Result<Found, AllocError>
        requires connected { component_count map.now.lists.now ≡ 1 }
        requires search { IsSearchFrom map.now.lists.now map.now.t search.now.forest.order.items search.now.forest.number.items search.now.forest.last.items search.now.forest.parent.items search.now.low.items }
        ensures { IfOk result (IsFound map.now.lists.now) }
    {
        map.facts();
        no_refusal_is_plane();
        number_faces_into(&mut self.faces, alloc, map, &search.forest.number)?;
        if map.lists.len() + self.faces.arcs.len() != map.twins.len() / 2 + 2 {
            return Ok(Found::Nothing);
        }
        match searched_cut_vertex(map.lists, &search.forest, &search.low) {
            Some(v) => Ok(Found::Cut(VertexId(v))),
            None => Ok(Found::Nothing),
        }
    }

    // Finds the answer to `map` by a `search` of it from vertex 0: its figure, or its least cut vertex. Returns
    // `Nothing`, which promises nothing, if it is not connected or not of genus zero. It fails only when out of memory.
    fn find(
        &mut self,
        alloc: Global,
        map: &Rooted<'_>,
        search: &SearchTables,
    ) -> Result<Found, AllocError>
        requires { IsSearchFrom map.now.lists.now map.now.t search.now.forest.order.items search.now.forest.number.items search.now.forest.last.items search.now.forest.parent.items search.now.low.items }
        ensures { IfOk result (IsFound map.now.lists.now) }
    {
        map.facts();
        if !sees_all(&search.forest) {
            return Ok(Found::Nothing);
        }
        if is_uncut(map.lists, &search.forest, &search.low) {
            return self.draw(alloc, map, search);
        }
        self.cut(alloc, map, search)
    }
}

impl Tables {
    // Returns the tables of no record. They take no memory.
    fn new(alloc: Global) -> Tables {
        Tables {
            search: SearchTables::new(alloc),
            dual: DualTables::new(alloc),
        }
    }

    // Finds the answer to the simple map `lists`, with the `twins` of its darts, as `DualTables::find` does. Returns
    // `Nothing` also for fewer than three vertices or no neighbour of vertex 0. Fails only when out of memory.
    fn find(&mut self, alloc: Global, lists: &Rotations, twins: &[u32]) -> Result<Found, AllocError>
        requires simple { IsSimpleMap lists.now }
        requires twins { AreTwins (darts lists.now) twins.now (length (darts lists.now)) }
        ensures { IfOk result (IsFound lists.now) }
    {
        if lists.len() < 3 || lists.list(0).is_empty() {
            return Ok(Found::Nothing);
        }
        let t = lists.list(0)[0];
        let map = Rooted { lists, twins, t };
        map.facts();
        self.search.search(alloc, lists, 0, t)?;
        self.dual.find(alloc, &map, &self.search)
    }
}

/// Draws the visibility drawings of records, one after another, and keeps its tables for the next.
///
/// They take some forty bytes for each dart of the largest record so far.
#[derive(Drop)]
pub struct BarDrawer {
    alloc: Global,
    tails: Vec<u16>,
    twins: Vec<u32>,
    threads: Vec<u32>,
    tables: Tables,
    counter: Counter,
}

impl BarDrawer {
    /// Returns a drawer that has drawn nothing yet. It takes no memory.
    pub fn new(alloc: Global) -> BarDrawer {
        BarDrawer {
            alloc,
            tails: Vec::new(alloc),
            twins: Vec::new(alloc),
            threads: Vec::new(alloc),
            tables: Tables::new(alloc),
            counter: Counter::new(alloc),
        }
    }

    /// Takes over the memory of `figure`, which is no longer needed.
    pub fn keep(&mut self, figure: BarFigure) {
        let BarFigure { y, x1, x2, column } = figure;
        self.tables.dual.y = y.into_vec();
        self.tables.dual.spans.columns = column.into_vec();
        self.tables.dual.spans.x1 = x1.into_vec();
        self.tables.dual.spans.x2 = x2.into_vec();
    }

    // Returns the figure of the record `lists`, at least one, by [`bar_figure`], or the first condition that it breaks.
    fn exact_figure(&mut self, lists: &Rotations) -> Result<BarFigure, Unserved>
        requires some_list { 0 < length lists.now }
        ensures figure { IfOk result (IsBarFigure lists.now) }
        ensures served { OnOk result (IsBiconnectedMap 3 lists.now) }
        ensures refused { IfErr result (IfRefused (BreaksFirst 3 lists.now)) }
    {
        let count = plane_count(&mut self.counter, lists, 3)?;
        if count.c != 1 {
            return Err(Unserved::Refused(Refusal::NotConnected));
        }
        match list_cut_vertex(self.alloc, lists)? {
            Some(v) => Err(Unserved::Refused(Refusal::CutVertex(VertexId(v)))),
            None => bar_figure(self.alloc, lists),
        }
    }

    /// Like `bar_figure`, returns the figure of the record `lists` or the condition that it breaks. After `NoMemory`
    /// the drawer can still be used.
    // inlined, it would make its caller spill registers
    #[inline(never)]
    pub fn figure(&mut self, lists: &Rotations) -> Result<BarFigure, Unserved>
        requires some_list { 0 < length lists.now }
        ensures figure { IfOk result (IsBarFigure lists.now) }
        ensures served { OnOk result (IsBiconnectedMap 3 lists.now) }
        ensures refused { IfErr result (IfRefused (BreaksFirst 3 lists.now)) }
    {
        fill_twins(
            self.alloc,
            lists,
            &mut self.tails,
            &mut self.twins,
            &mut self.threads,
        )?;
        match self.tables.find(self.alloc, lists, &self.twins)? {
            Found::Drawn(figure) => Ok(figure),
            Found::Cut(v) => Err(Unserved::Refused(Refusal::CutVertex(v))),
            Found::Nothing => self.exact_figure(lists),
        }
    }
}
