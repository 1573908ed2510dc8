//! The ring of ties that shows a conflict: return edges, each tied to the next, back to the first on the other side.
use crate::dart_lists::Links;
use crate::fixed_tables::{
    ARC_ZEROS, ByArc, ByDart, ByEdge, DART_ZEROS, EDGE_ZEROS, NONE, plus, twice,
};
use crate::search_tables::Search;
use crate::side_ties::Ties;

// Stands for the side of a return edge that was not reached.
const UNSEEN: u32 = 2;

/// The tables of a breadth-first search along ties, and the ring that it found.
#[derive(Clone, Copy)]
pub struct OddRing {
    // for each return edge its first tie end; end 2k goes along tie k from its one edge, 2k + 1 from the other
    first: ByArc,
    // for each end of a tie the next of its edge
    next: ByDart,
    /// For each return edge the end of a tie along which it was reached.
    pub way: ByArc,
    // for each return edge whether it is on the side of the one searched from, as 0 or 1
    side: ByArc,
    // the return edges that were reached, in turn
    queue: ByEdge,
    // how many there are
    reached: u32,
    // above which height an edge returns that the conflict binds
    low: u32,
    // below which height
    high: u32,
    /// The return edge at which the ring begins.
    pub one: u32,
    /// The one at which it ends, on the other side.
    pub other: u32,
}

impl OddRing {
    /// The tables of no ring.
    pub const FRESH: OddRing = OddRing {
        first: ARC_ZEROS,
        next: DART_ZEROS,
        way: ARC_ZEROS,
        side: ARC_ZEROS,
        queue: EDGE_ZEROS,
        reached: 0,
        low: 0,
        high: 0,
        one: 0,
        other: 0,
    };

    // Puts `end`, one end of a tie, into the list of the ties of its return edge `edge`.
    #[inline(always)]
    fn put_end(&mut self, end: u32, edge: u32) {
        self.next.set(end, self.first.get(edge));
        self.first.set(edge, end);
    }

    // Marks the return edge `edge`, if it was not reached, as reached along tie end `end` on `side`, and queues it.
    #[inline(always)]
    fn reach(&mut self, edge: u32, end: u32, side: u32) {
        if self.side.get(edge) == UNSEEN {
            self.side.set(edge, side);
            self.way.set(edge, end);
            self.queue.set(self.reached, edge);
            self.reached = plus(self.reached, 1);
        }
    }

    // Searches breadth-first along ties from the return edge `start` for one on the other side whose end has a height
    // between `self.low` and `self.high`. Returns it, or NONE. No return edge may be marked as reached before.
    fn nearest(&mut self, links: &Links, search: &Search, start: u32) -> u32 {
        self.reached = 0;
        self.reach(start, NONE, 0);
        for place in 0..links.darts / 2 {
            if place >= self.reached {
                return NONE;
            }
            let edge = self.queue.get(place);
            let side = self.side.get(edge);
            let height = search.lowpt.get(edge);
            if side == 1 && self.low < height && height < self.high {
                return edge;
            }
            let mut end = self.first.get(edge);
            for _ in 0..search.ties.count {
                if end == NONE {
                    break;
                }
                let turn = search.ties.turn.get(end >> 1);
                self.reach(far_edge(&search.ties, end), end, side ^ turn);
                end = self.next.get(end);
            }
        }
        NONE
    }

    /// Sets `self` to the ring of ties (see `Tie`) that shows the conflict of `search`. It leads from `one` to `other`,
    /// which is on the other side though the conflict forces both to one side.
    pub fn find(&mut self, links: &Links, search: &Search) {
        self.first.fill(links.darts / 2, NONE);
        self.side.fill(links.darts / 2, UNSEEN);
        for tie in 0..search.ties.count {
            self.put_end(twice(tie), search.ties.one.get(tie));
            self.put_end(twice(tie) ^ 1, search.ties.other.get(tie));
        }
        // it binds those along its dart, or those along earlier ones that it meets
        let least = if search.meeting == NONE {
            search.leaving.get(search.failed)
        } else {
            search.failed_dart
        };
        self.low = search.lowpt.get(least);
        self.high = search.height.get(search.failed);
        self.one = self.nearest(links, search, search.odd);
        // none of those reached so far counts for the second search
        for place in 0..self.reached {
            self.side.set(self.queue.get(place), UNSEEN);
        }
        self.other = self.nearest(links, search, self.one);
    }
}

/// Returns the dart of `vertex` along which the return edge `edge` returns: the first on the tree path from `vertex`
/// down to the edge, or the edge itself.
pub fn branch_of(links: &Links, search: &Search, edge: u32, vertex: u32) -> u32 {
    let mut dart = edge;
    for _ in 0..links.vertices {
        let tail = links.tail(dart);
        if tail == vertex {
            break;
        }
        dart = search.parent.get(tail);
    }
    dart
}

/// Returns the return edge from which the tie end `end` leads: `one` of tie k if `end` is 2k, `other` if it is 2k + 1.
#[inline(always)]
pub fn near_edge(ties: &Ties, end: u32) -> u32 {
    far_edge(ties, end ^ 1)
}

// Returns the return edge to which the tie end `end` leads: `other` of tie k if `end` is 2k, `one` if it is 2k + 1.
#[inline(always)]
fn far_edge(ties: &Ties, end: u32) -> u32 {
    if end & 1 == 0 {
        ties.other.get(end >> 1)
    } else {
        ties.one.get(end >> 1)
    }
}
