//! A depth-first search under way: it sees a vertex, moves along its list, ends it and goes back to its parent.
ghost use Rattle.std.specs.Prelude.{◌≡◌, ◌+◌, ◌<◌, ◌≤◌, ◌↔◌, IsTrue, ℕ, length, slice_index, slice_set, replicate};
ghost use Rattle.map_theory.specs.Maps.{HasDart, list_of};
ghost use Rattle.graph_search.specs.Forests.{IsForestOf};
ghost use Rattle.graph_search.specs.Lows.{AreLows};
ghost use Rattle.graph_search.specs.UnderWay.{AreCleared, IsSearching, AreLowsSoFar, IsLeastFrom, KeepsNumbers, work_in};

use crate::search_forests::forest::{Forest, SearchTables};
use crate::search_forests::lowpoints::{lesser, lower};
use map_lists::Rotations;

/// A search of lists under way: its tables, and where it stands.
#[derive(Drop)]
pub(crate) struct Search<'a> {
    lists: &'a Rotations,
    order: Vec<u16>,
    number: Vec<u16>,
    last: Vec<u16>,
    parent: Vec<u16>,
    // for each vertex how many entries of its list were read
    cursor: Vec<usize>,
    // for each vertex its low point, as far as it is found
    low: Vec<u16>,
    // how many vertices were seen
    count: u16,
    // the vertex whose neighbours are read, or the number of vertices where none is open
    current: u16,
    ghost few: { length lists.now < 4096 },
    ghost in_range: { (v u : ℕ) → HasDart lists.now v u → u < length lists.now },
    ghost searching: { IsSearching lists.now order.items number.items last.items parent.items cursor.items count current },
    ghost lows: { AreLowsSoFar lists.now number.items last.items parent.items cursor.items low.items },
}

impl<'a> Search<'a> {
    /// Returns a search of `lists` in which no vertex was seen, with `tables` that `SearchTables::clear` has reset.
    #[inline(always)]
    pub(crate) fn begun(lists: &'a Rotations, tables: SearchTables) -> Search<'a>
        requires in_range { (v u : ℕ) → HasDart lists.now v u → u < length lists.now }
        requires cleared { AreCleared (length lists.now) tables.forest.order.items tables.forest.number.items tables.forest.last.items tables.forest.parent.items tables.cursor.items tables.low.items }
        ensures lists { result.lists.now ≡ lists.now }
        ensures count { result.count ≡ 0 }
        ensures current { result.current ≡ length lists.now }
        ensures number { result.number.items ≡ replicate (length lists.now) (length lists.now) }
    {
        Search {
            lists,
            order: tables.forest.order,
            number: tables.forest.number,
            last: tables.forest.last,
            parent: tables.forest.parent,
            cursor: tables.cursor,
            low: tables.low,
            count: 0,
            current: lists.len() as u16,
        }
    }

    // Says whether the search has not yet seen vertex `v`.
    #[inline(always)]
    fn is_unseen(&self, v: u16) -> bool
        requires { v < length self.now.lists.now }
        ensures { IsTrue result ↔ (length self.now.lists.now ≤ slice_index self.now.number.items v) }
    {
        self.number[v as usize] as usize >= self.lists.len()
    }

    // Says whether there is a current vertex, whose neighbours are being read.
    #[inline(always)]
    fn is_open(&self) -> bool
        ensures { IsTrue result ↔ (self.now.current < length self.now.lists.now) }
    {
        (self.current as usize) < self.lists.len()
    }

    // Returns the first index from `from` on at which `list`, that of the current vertex, has an unseen vertex, or
    // its length. Also returns the least of `start` and of the numbers of the vertices before that.
    #[inline(always)]
    fn unseen_place(&self, list: &[u16], from: usize, start: u16) -> (usize, u16)
        requires vertex { self.now.current < length self.now.lists.now }
        requires list { list.now ≡ list_of self.now.lists.now self.now.current }
        requires from { from ≤ length list.now }
        ensures after { from ≤ result.0 }
        ensures within { result.0 ≤ length list.now }
        ensures seen { (i : ℕ) → from ≤ i → i < result.0 → slice_index self.now.number.items (slice_index list.now i) < length self.now.lists.now }
        ensures unseen { result.0 < length list.now → length self.now.lists.now ≤ slice_index self.now.number.items (slice_index list.now result.0) }
        ensures least { IsLeastFrom list.now self.now.number.items from result.0 start result.1 }
    {
        let mut least = start;
        for i in from..list.len() {
            if self.is_unseen(list[i]) {
                return (i, least);
            }
            least = lesser(least, self.number[list[i] as usize]);
        }
        (list.len(), least)
    }

    // Marks the unseen `v` as seen from the current vertex, its neighbour, or else as a root, and makes it current.
    #[inline(always)]
    pub(crate) fn see(&mut self, v: u16)
        requires vertex { v < length self.old.lists.now }
        requires unseen { length self.old.lists.now ≤ slice_index self.old.number.items v }
        requires dart { self.old.current < length self.old.lists.now → HasDart self.old.lists.now self.old.current v }
        ensures lists { self.new.lists.now ≡ self.old.lists.now }
        ensures number { self.new.number.items ≡ slice_set self.old.number.items v self.old.count }
        ensures count { self.new.count ≡ self.old.count + 1 }
        ensures current { self.new.current ≡ v }
        ensures less { work_in self.new.number.items self.new.last.items < work_in self.old.number.items self.old.last.items }
    {
        let count = self.count;
        self.order[count as usize] = v;
        self.number[v as usize] = count;
        self.parent[v as usize] = self.current;
        self.count = count + 1;
        self.current = v;
    }

    // Ends the current vertex, whose neighbours were all seen: its parent becomes current and takes over its low point.
    #[inline(always)]
    fn end(&mut self)
        requires vertex { self.old.current < length self.old.lists.now }
        requires all { slice_index self.old.cursor.items self.old.current ≡ length (list_of self.old.lists.now self.old.current) }
        ensures lists { self.new.lists.now ≡ self.old.lists.now }
        ensures number { self.new.number.items ≡ self.old.number.items }
        ensures less { work_in self.new.number.items self.new.last.items < work_in self.old.number.items self.old.last.items }
    {
        let v = self.current as usize;
        let above = self.parent[v];
        let least = self.low[v];
        self.last[v] = self.count;
        lower(&mut self.low, above, least);
        self.current = above;
    }

    // Moves the cursor of the current vertex on in its `list` to the next unseen neighbour, and lowers its low point.
    // Returns the index there, or the length of `list` where there is none.
    #[inline(always)]
    fn go_on(&mut self, list: &[u16]) -> usize
        requires vertex { self.old.current < length self.old.lists.now }
        requires list { list.now ≡ list_of self.old.lists.now self.old.current }
        ensures lists { self.new.lists.now ≡ self.old.lists.now }
        ensures number { self.new.number.items ≡ self.old.number.items }
        ensures last { self.new.last.items ≡ self.old.last.items }
        ensures current { self.new.current ≡ self.old.current }
        ensures cursor { slice_index self.new.cursor.items self.old.current ≡ result }
        ensures within { result ≤ length list.now }
        ensures unseen { result < length list.now → length self.old.lists.now ≤ slice_index self.old.number.items (slice_index list.now result) }
    {
        let v = self.current as usize;
        let (place, least) = self.unseen_place(list, self.cursor[v], self.low[v]);
        self.cursor[v] = place;
        self.low[v] = least;
        place
    }

    // Sees the next unseen neighbour of the current vertex, or ends that vertex.
    #[inline(always)]
    fn step(&mut self)
        requires { self.old.current < length self.old.lists.now }
        ensures lists { self.new.lists.now ≡ self.old.lists.now }
        ensures keeps { KeepsNumbers self.old.number.items self.new.number.items }
        ensures less { work_in self.new.number.items self.new.last.items < work_in self.old.number.items self.old.last.items }
    {
        let lists = self.lists;
        let list = lists.list(self.current as usize);
        let place = self.go_on(list);
        if place < list.len() {
            self.see(list[place]);
        } else {
            self.end();
        }
    }

    // Takes steps until no vertex is current: the tree is finished.
    #[inline(always)]
    fn search_on(&mut self)
        ensures lists { self.new.lists.now ≡ self.old.lists.now }
        ensures keeps { KeepsNumbers self.old.number.items self.new.number.items }
        ensures none { length self.old.lists.now ≤ self.new.current }
    {
        while self.is_open() {
            self.step();
        }
    }

    /// Goes on until all vertices were seen and none is open.
    #[inline(always)]
    pub(crate) fn finish(&mut self)
        ensures lists { self.new.lists.now ≡ self.old.lists.now }
        ensures keeps { KeepsNumbers self.old.number.items self.new.number.items }
        ensures forest { IsForestOf self.old.lists.now self.new.order.items self.new.number.items self.new.last.items self.new.parent.items }
        ensures lows { AreLows self.old.lists.now self.new.number.items self.new.last.items self.new.low.items }
    {
        self.search_on();
        if self.lists.len() <= usize::from(self.count) {
            return;
        }
        for v in 0..self.lists.len() {
            if !self.is_unseen(v as u16) {
                continue;
            }
            self.see(v as u16);
            self.search_on();
        }
    }

    /// Returns the tables that the search has filled.
    #[inline(always)]
    pub(crate) fn into_tables(self) -> SearchTables
        ensures order { result.forest.order.items ≡ self.entry.order.items }
        ensures number { result.forest.number.items ≡ self.entry.number.items }
        ensures last { result.forest.last.items ≡ self.entry.last.items }
        ensures parent { result.forest.parent.items ≡ self.entry.parent.items }
        ensures low { result.low.items ≡ self.entry.low.items }
    {
        SearchTables {
            forest: Forest {
                order: self.order,
                number: self.number,
                last: self.last,
                parent: self.parent,
            },
            low: self.low,
            cursor: self.cursor,
        }
    }
}
