//! The forest of a finished depth-first search, the public calls that search, and the tables that keep their memory.
ghost use Rattle.std.specs.Prelude.{◌≡◌, ◌<◌, ◌≢◌, length, slice_index, replicate, IfOk};
ghost use Rattle.map_theory.specs.Maps.{HasDart};
ghost use Rattle.graph_search.specs.Forests.{IsAdjacency, IsForestOf};
ghost use Rattle.graph_search.specs.Lows.{AreLows};
ghost use Rattle.graph_search.specs.UnderWay.{AreCleared};

use crate::search_forests::search_steps::Search;
use map_lists::Rotations;
use std::alloc::{AllocError, Global};
use std::mem;

/// The forest of a finished search, as tables with an entry for each vertex.
#[derive(Drop)]
pub struct Forest {
    /// The vertices in the order in which they were seen.
    pub order: Vec<u16>,
    /// For each vertex its index in that order, from 0.
    pub number: Vec<u16>,
    /// For each vertex the number of vertices seen by the time when all its neighbours were.
    pub last: Vec<u16>,
    /// For each vertex that from which it was seen, or the number of vertices where there is none.
    pub parent: Vec<u16>,
}

/// Returns the depth-first forest of `lists`, in which adjacency goes both ways. It fails only when out of memory.
pub fn search_forest(alloc: Global, lists: &Rotations) -> Result<Forest, AllocError>
    requires adjacency { IsAdjacency lists.now }
    ensures { IfOk result (λ f. IsForestOf lists.now f.order.items f.number.items f.last.items f.parent.items) }
{
    let mut tables = SearchTables::new(alloc);
    tables.clear(lists.len())?;
    let mut search = Search::begun(lists, tables);
    search.finish();
    Ok(search.into_tables().forest)
}

impl Forest {
    /// Returns a forest of no lists. It takes no memory.
    pub fn new(alloc: Global) -> Forest {
        Forest {
            order: Vec::new(alloc),
            number: Vec::new(alloc),
            last: Vec::new(alloc),
            parent: Vec::new(alloc),
        }
    }
}

/// Makes `table` `n` entries long: it is cut, or filled up with copies of `item`. It fails only when out of memory.
#[inline(always)]
pub fn size<T: Copy>(table: &mut Vec<T>, item: T, n: usize) -> Result<(), AllocError>
    ensures { IfOk result (λ _. length table.new.items ≡ n) }
{
    if n <= table.len() {
        table.truncate(n);
        return Ok(());
    }
    table.resize(n, item)?;
    Ok(())
}

// Resets the tables of a search, with an entry for each of n vertices. `number` and `low` get n, for vertices unseen
// and without a low point. `last` and `cursor` get 0, for open vertices of whose lists no entry was read.
fn unsee(number: &mut [u16], last: &mut [u16], low: &mut [u16], cursor: &mut [usize])
    requires few { length number.old < 4096 }
    requires lasts { length last.old ≡ length number.old }
    requires lows { length low.old ≡ length number.old }
    requires cursors { length cursor.old ≡ length number.old }
    ensures number { number.new ≡ replicate (length number.old) (length number.old) }
    ensures last { last.new ≡ replicate (length number.old) 0 }
    ensures low { low.new ≡ replicate (length number.old) (length number.old) }
    ensures cursor { cursor.new ≡ replicate (length number.old) 0 }
{
    let n = number.len();
    for v in 0..n {
        number[v] = n as u16;
        last[v] = 0;
        low[v] = n as u16;
        cursor[v] = 0;
    }
}

/// The tables of a search with its low points, which keep their memory from one search to the next.
#[derive(Drop)]
pub struct SearchTables {
    /// The forest of the search.
    pub forest: Forest,
    /// For each vertex its low point.
    pub low: Vec<u16>,
    /// For each vertex how many entries of its list were read.
    pub(crate) cursor: Vec<usize>,
}

impl SearchTables {
    /// Returns tables of no search. They take no memory.
    pub fn new(alloc: Global) -> SearchTables {
        SearchTables {
            forest: Forest::new(alloc),
            low: Vec::new(alloc),
            cursor: Vec::new(alloc),
        }
    }

    // Resets the tables to a search of `n` vertices of which none was seen. It fails only when out of memory.
    fn clear(&mut self, n: usize) -> Result<(), AllocError>
        requires { n < 4096 }
        ensures { IfOk result (λ _. AreCleared n self.new.forest.order.items self.new.forest.number.items self.new.forest.last.items self.new.forest.parent.items self.new.cursor.items self.new.low.items) }
    {
        size(&mut self.forest.order, 0, n)?;
        size(&mut self.forest.number, 0, n)?;
        size(&mut self.forest.last, 0, n)?;
        size(&mut self.forest.parent, 0, n)?;
        size(&mut self.low, 0, n)?;
        size(&mut self.cursor, 0, n)?;
        unsee(
            &mut self.forest.number,
            &mut self.forest.last,
            &mut self.low,
            &mut self.cursor,
        );
        Ok(())
    }

    /// Searches lists in which adjacency goes both ways, from `s`, which sees its neighbour `t` next, and finds the low
    /// points. It fails only when out of memory.
    pub fn search(
        &mut self,
        alloc: Global,
        lists: &Rotations,
        s: u16,
        t: u16,
    ) -> Result<(), AllocError>
        requires adjacency { IsAdjacency lists.now }
        requires dart { HasDart lists.now s t }
        requires two { s ≢ t }
        ensures forest { IfOk result (λ _. IsForestOf lists.now self.new.forest.order.items self.new.forest.number.items self.new.forest.last.items self.new.forest.parent.items) }
        ensures lows { IfOk result (λ _. AreLows lists.now self.new.forest.number.items self.new.forest.last.items self.new.low.items) }
        ensures first { IfOk result (λ _. slice_index self.new.forest.number.items s ≡ 0) }
        ensures second { IfOk result (λ _. slice_index self.new.forest.number.items t ≡ 1) }
    {
        self.clear(lists.len())?;
        let tables = mem::replace(self, SearchTables::new(alloc));
        let mut search = Search::begun(lists, tables);
        search.see(s);
        search.see(t);
        search.finish();
        *self = search.into_tables();
        Ok(())
    }
}

/// Like [`search_forest`], but begins at `s`, which sees its neighbour `t` next.
pub fn search_forest_along(
    alloc: Global,
    lists: &Rotations,
    s: u16,
    t: u16,
) -> Result<Forest, AllocError>
    requires adjacency { IsAdjacency lists.now }
    requires dart { HasDart lists.now s t }
    requires two { s ≢ t }
    ensures forest { IfOk result (λ f. IsForestOf lists.now f.order.items f.number.items f.last.items f.parent.items) }
    ensures first { IfOk result (λ f. slice_index f.number.items s ≡ 0) }
    ensures second { IfOk result (λ f. slice_index f.number.items t ≡ 1) }
{
    let mut tables = SearchTables::new(alloc);
    tables.search(alloc, lists, s, t)?;
    Ok(tables.forest)
}
