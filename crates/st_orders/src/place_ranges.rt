//! The place of each vertex in an st-order, as a range taken from the range of its parent in a depth-first search.
ghost use Rattle.std.specs.Prelude.{◌≡◌, ◌+◌, ◌<◌, ◌≤◌, ◌≢◌, ℕ, true, false, length, slice_index, slice_index_or, slice_set, IfOk};
ghost use Rattle.st_orders.specs.Placing.{IsCarved, IsWholeBy, AreTables, ArePlacedBelow};

use graph_search::search_forests::{Forest, size};
use map_lists::Rotations;
use std::alloc::{AllocError, Global};

/// Lends lists, a search of them from s that sees t next, and the low point of each vertex in it.
#[derive(Clone, Copy)]
pub(crate) struct LowSearch<'a> {
    pub(crate) lists: &'a Rotations,
    pub(crate) forest: &'a Forest,
    pub(crate) low: &'a [u16],
    pub(crate) ghost some: { 2 ≤ length lists.now },
}

/// The ranges from which vertices take their places, which keep their memory from one map to the next.
#[derive(Drop)]
pub struct Ranges {
    /// For each vertex where its range begins: in the end its place in an st-order, from 0.
    pub from: Vec<u16>,
    // for each vertex where its range ends
    to: Vec<u16>,
    // for each vertex whether its last child so far took its places from below
    recent: Vec<bool>,
}

// The places that a vertex takes from the range of its parent.
#[derive(Clone, Copy)]
struct Share {
    vertex: u16,
    parent: u16,
    // how many
    size: u16,
    // whether from below, or else from above
    below: bool,
    ghost other: { parent ≢ vertex },
}

// Takes `share.size` places off the range of the parent, longer than that, for the range of the vertex of `share`: at
// its lower end if `share.below`, else at its upper. `from` and `to` have by vertex where ranges begin and end.
fn take_places(from: &mut [u16], to: &mut [u16], share: Share)
    requires froms { length from.old ≡ length to.old }
    requires vertex_in { share.vertex < length from.old }
    requires parent_in { share.parent < length from.old }
    requires room { slice_index from.old share.parent + share.size < slice_index to.old share.parent }
    ensures { IsCarved (λ x. slice_index from.old x) (λ x. slice_index to.old x) (λ x. slice_index from.new x) (λ x. slice_index to.new x) share.vertex share.parent share.size share.below }
{
    let vertex = share.vertex as usize;
    let parent = share.parent as usize;
    if share.below {
        let start = from[parent];
        from[parent] = start + share.size;
        from[vertex] = start;
        to[vertex] = start + share.size;
    } else {
        let end = to[parent];
        to[parent] = end - share.size;
        from[vertex] = end - share.size;
        to[vertex] = end;
    }
}

impl Ranges {
    /// Returns the ranges of no map. They take no memory.
    pub fn new(alloc: Global) -> Ranges {
        Ranges {
            from: Vec::new(alloc),
            to: Vec::new(alloc),
            recent: Vec::new(alloc),
        }
    }

    // Makes the tables as long as `lists`. It fails only when out of memory.
    pub(crate) fn make_room(&mut self, lists: &Rotations) -> Result<(), AllocError>
        ensures { IfOk result (λ _. AreTables lists.now self.new.from.items self.new.to.items self.new.recent.items) }
    {
        let n = lists.len();
        size(&mut self.from, 0, n)?;
        size(&mut self.to, 0, n)?;
        size(&mut self.recent, false, n)?;
        Ok(())
    }

    // Gives the vertex with number `next`, at least 2, of `search` its range from that of its parent: a place for each
    // vertex of its subtree. It is on the other side of the parent than the vertex at its low point. All vertices with
    // lesser numbers have ranges already.
    fn place_next(&mut self, search: &LowSearch<'_>, next: u16)
        requires whole { IsWholeBy search.now.lists.now search.now.forest.now search.now.low.now }
        requires placed { ArePlacedBelow search.now.lists.now search.now.forest.now search.now.low.now self.old next }
        requires two { 2 ≤ next }
        requires few { next < length search.now.lists.now }
        ensures { ArePlacedBelow search.now.lists.now search.now.forest.now search.now.low.now self.new (next + 1) }
    {
        let vertex = search.forest.order[next as usize];
        let above = search.forest.parent[vertex as usize];
        let far = search.forest.order[search.low[vertex as usize] as usize];
        let below = !self.recent[far as usize];
        let size = search.forest.last[vertex as usize] - next;
        let share = Share {
            vertex,
            parent: above,
            size,
            below,
        };
        take_places(&mut self.from, &mut self.to, share);
        self.recent[above as usize] = below;
    }

    // Gives all vertices of `search` their places, in `self.from`: s has the first, t all others, from which each
    // further vertex takes its own.
    pub(crate) fn place_all(&mut self, search: &LowSearch<'_>)
        requires whole { IsWholeBy search.now.lists.now search.now.forest.now search.now.low.now }
        requires tables { AreTables search.now.lists.now self.old.from.items self.old.to.items self.old.recent.items }
        ensures { ArePlacedBelow search.now.lists.now search.now.forest.now search.now.low.now self.new (length search.now.lists.now) }
    {
        let n = search.lists.len();
        let s = search.forest.order[0] as usize;
        let t = search.forest.order[1] as usize;
        self.from[s] = 0;
        self.to[s] = 1;
        self.from[t] = 1;
        self.to[t] = n as u16;
        self.recent[s] = false;
        for k in 2..n {
            self.place_next(search, k as u16);
        }
    }
}
