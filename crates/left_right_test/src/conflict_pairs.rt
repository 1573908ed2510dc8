//! The testing phase (second search): a stack of conflict pairs, each two intervals of return edges on different sides.
use crate::dart_lists::Links;
use crate::fixed_tables::{MANY_DARTS, MANY_STEPS, NONE, lesser, minus, plus};
use crate::search_tables::Search;
use crate::side_ties::Tie;

// An interval of return edges from its lowest to its highest one, each with its side relative to the next lower one.
// Both ends are NONE where it is empty.
#[derive(Clone, Copy)]
struct Interval {
    low: u32,
    high: u32,
}

// A conflict pair: two intervals whose return edges are on different sides.
#[derive(Clone, Copy)]
struct ConflictPair {
    left: Interval,
    right: Interval,
}

// The empty interval.
const EMPTY: Interval = Interval {
    low: NONE,
    high: NONE,
};

impl Interval {
    // Says whether the interval has no return edge.
    #[inline(always)]
    fn is_empty(self) -> bool {
        self.high == NONE
    }
}

impl ConflictPair {
    // Returns the pair, with left and right exchanged if `swap` is set.
    #[inline(always)]
    fn swapped_if(self, swap: bool) -> ConflictPair {
        if !swap {
            return self;
        }
        ConflictPair {
            left: self.right,
            right: self.left,
        }
    }
}

impl Search {
    // Returns the conflict pair at index `place` of the stack.
    #[inline(always)]
    fn pair(&self, place: u32) -> ConflictPair {
        ConflictPair {
            left: Interval {
                low: self.left_low.get(place),
                high: self.left_high.get(place),
            },
            right: Interval {
                low: self.right_low.get(place),
                high: self.right_high.get(place),
            },
        }
    }

    // Pushes `pair` on the stack of conflict pairs.
    #[inline(always)]
    fn push_pair(&mut self, pair: ConflictPair) {
        self.left_low.set(self.top, pair.left.low);
        self.left_high.set(self.top, pair.left.high);
        self.right_low.set(self.top, pair.right.low);
        self.right_high.set(self.top, pair.right.high);
        self.top = plus(self.top, 1);
    }

    // Pops the top conflict pair from the stack. It returns an empty pair where the stack is empty.
    #[inline(always)]
    fn pop_pair(&mut self) -> ConflictPair {
        if self.top == 0 {
            return ConflictPair {
                left: EMPTY,
                right: EMPTY,
            };
        }
        self.top = minus(self.top, 1);
        self.pair(self.top)
    }

    // Says whether `interval` has an edge that ends at a height (steps from the root) above `low`, a dart's lowpoint.
    #[inline(always)]
    fn conflicts(&self, interval: Interval, low: u32) -> bool {
        !interval.is_empty() && self.lowpt.get(interval.high) > low
    }

    // Says whether an interval of the top conflict pair conflicts with a dart of lowpoint `low`.
    #[inline(always)]
    fn top_conflicts(&self, low: u32) -> bool {
        if self.top == 0 {
            return false;
        }
        let pair = self.pair(minus(self.top, 1));
        self.conflicts(pair.left, low) || self.conflicts(pair.right, low)
    }

    // Returns the least height to which an edge of `pair` returns.
    #[inline(always)]
    fn least_return(&self, pair: ConflictPair) -> u32 {
        if pair.left.is_empty() {
            self.lowpt.get(pair.right.low)
        } else if pair.right.is_empty() {
            self.lowpt.get(pair.left.low)
        } else {
            lesser(
                self.lowpt.get(pair.left.low),
                self.lowpt.get(pair.right.low),
            )
        }
    }

    // Records a tie: the return edges `one` and `other` along `dart` are on one side. Does nothing if `one` is NONE.
    #[inline(always)]
    fn note_alike(&mut self, one: u32, other: u32, dart: u32) {
        if one != NONE {
            self.ties.push(Tie {
                one,
                other,
                dart,
                turn: 0,
            });
        }
    }

    // Records in `self` the return edges at which a conflict shows: `one` can be on neither side. `meeting` is the
    // highest edge along the failing dart if `one` is along an earlier dart, and NONE if `one` is along that dart too.
    fn note_odd(&mut self, one: u32, meeting: u32) {
        self.odd = one;
        self.meeting = meeting;
    }

    // Returns two intervals joined on one side: the lowest edge of `above` becomes relative to the highest of `below`.
    #[inline(always)]
    fn joined_intervals(&mut self, above: Interval, below: Interval) -> Interval {
        if above.is_empty() {
            return below;
        }
        if below.is_empty() {
            return above;
        }
        self.reference.set(above.low, below.high);
        Interval {
            low: below.low,
            high: above.high,
        }
    }

    // Pops the conflict pairs above the stack bottom of `dart`. Returns the interval of their edges that end at a
    // height above the lowpoint of `parent`, the dart to its tail, if all are on one side. Returns None, and records an
    // edge by `note_odd`, where they need both sides.
    fn return_edges_of(&mut self, dart: u32, parent: u32) -> Option<Interval> {
        let mut right = EMPTY;
        let bottom = self.stack_bottom.get(dart);
        for _ in 0..self.top {
            let popped = self.pop_pair();
            let pair = popped.swapped_if(!popped.left.is_empty());
            if !pair.left.is_empty() {
                self.note_odd(pair.left.high, NONE);
                return None;
            }
            if self.lowpt.get(pair.right.low) > self.lowpt.get(parent) {
                self.note_alike(right.high, pair.right.high, dart);
                right = self.joined_intervals(right, pair.right);
            } else {
                self.reference
                    .set(pair.right.low, self.lowpt_edge.get(parent));
            }
            if self.top <= bottom {
                return Some(right);
            }
        }
        Some(right)
    }

    // Pops all conflict pairs with an edge that ends at a height above the lowpoint of `dart`, and pushes one pair
    // instead. On its left are their conflicting intervals, on its right `right`, the edges along `dart`, and their
    // other intervals. Returns false, and records the edges with `note_odd`, where both intervals of a pair conflict.
    fn merge_conflicts(&mut self, right: Interval, dart: u32) -> bool {
        let low = self.lowpt.get(dart);
        let mut pair = ConflictPair { left: EMPTY, right };
        for _ in 0..self.top {
            if !self.top_conflicts(low) {
                break;
            }
            let popped = self.pop_pair();
            let next = popped.swapped_if(self.conflicts(popped.right, low));
            if self.conflicts(next.right, low) {
                self.note_odd(next.left.high, pair.right.high);
                return false;
            }
            self.ties.push(Tie {
                one: next.left.high,
                other: pair.right.high,
                dart,
                turn: 1,
            });
            pair = ConflictPair {
                left: self.joined_intervals(pair.left, next.left),
                right: self.joined_intervals(pair.right, next.right),
            };
        }
        self.push_pair(pair);
        true
    }

    // Merges `right`, the return edges along `dart`, with those along earlier darts of its vertex on the stack. Returns
    // false, and records the edges with `note_odd`, where no sides fit them all.
    #[inline(always)]
    fn merge_return_edges(&mut self, right: Interval, dart: u32) -> bool {
        if self.top_conflicts(self.lowpt.get(dart)) {
            return self.merge_conflicts(right, dart);
        }
        if !right.is_empty() {
            self.push_pair(ConflictPair { left: EMPTY, right });
        }
        true
    }

    // Records `vertex` and `dart` as those at which a conflict showed, unless `fits` is set. It returns `fits`.
    #[inline(always)]
    fn settled(&mut self, fits: bool, dart: u32, vertex: u32) -> bool {
        if !fits {
            self.failed = vertex;
            self.failed_dart = dart;
        }
        fits
    }

    // Puts the return edge `dart` of `vertex` on the stack, merged with what conflicts with it. Returns false, and
    // records the conflict in `self`, where no sides fit them.
    #[inline(always)]
    fn take_edge(&mut self, dart: u32, vertex: u32) -> bool {
        let parent = self.parent.get(vertex);
        let right = Interval {
            low: dart,
            high: dart,
        };
        self.lowpt_edge.set(dart, dart);
        if self.leaving.get(vertex) == dart {
            self.lowpt_edge.set(parent, dart);
            self.push_pair(ConflictPair { left: EMPTY, right });
            return true;
        }
        let fits = if self.lowpt.get(dart) > self.lowpt.get(parent) {
            self.merge_return_edges(right, dart)
        } else {
            self.reference.set(dart, self.lowpt_edge.get(parent));
            self.merge_return_edges(EMPTY, dart)
        };
        self.settled(fits, dart, vertex)
    }

    // Merges the return edges along the tree dart `dart` of `vertex`, by which the search came back, into the stack.
    // The side of `dart` becomes relative to that of the highest of them. Returns false, and records the conflict in
    // `self`, where they and those of earlier darts fit no sides.
    #[inline(always)]
    fn integrate(&mut self, dart: u32, vertex: u32) -> bool {
        if self.lowpt.get(dart) >= self.height.get(vertex) {
            return true;
        }
        if self.top != 0 {
            let pair = self.pair(minus(self.top, 1));
            let left = pair.left.high;
            let right = pair.right.high;
            let by_left = left != NONE
                && (right == NONE || self.lowpt.get(left) > self.lowpt.get(right));
            self.reference.set(dart, if by_left { left } else { right });
        }
        let parent = self.parent.get(vertex);
        if self.leaving.get(vertex) == dart {
            self.lowpt_edge.set(parent, self.lowpt_edge.get(dart));
            return true;
        }
        let fits = match self.return_edges_of(dart, parent) {
            Some(right) => self.merge_return_edges(right, dart),
            None => false,
        };
        self.settled(fits, dart, vertex)
    }

    // Returns `interval` without its highest return edges that lead to `vertex`. Where none is left, the lowest edge is
    // set in `self` to the side opposite to the edge `other`, and an empty interval is returned.
    fn trimmed(&mut self, links: &Links, interval: Interval, other: u32, vertex: u32) -> Interval {
        if interval.is_empty() {
            return interval;
        }
        let mut high = interval.high;
        for _ in 0..MANY_DARTS {
            if high == NONE || links.head.get(high) != vertex {
                break;
            }
            high = self.reference.get(high);
        }
        if high == NONE {
            self.reference.set(interval.low, other);
            self.side.set(interval.low, 1);
            return EMPTY;
        }
        Interval {
            low: interval.low,
            high,
        }
    }

    // Removes all return edges to `vertex` from the stack: whole pairs, then the highest edges of the new top pair.
    #[inline(always)]
    fn drop_return_edges(&mut self, links: &Links, vertex: u32) {
        let height = self.height.get(vertex);
        for _ in 0..self.top {
            let pair = self.pair(minus(self.top, 1));
            if self.least_return(pair) != height {
                break;
            }
            self.top = minus(self.top, 1);
            self.side.set(pair.left.low, 1);
        }
        if self.top == 0 {
            return;
        }
        let pair = self.pair(minus(self.top, 1));
        if leads_to(links, pair.left, vertex) || leads_to(links, pair.right, vertex) {
            self.top = minus(self.top, 1);
            let left = self.trimmed(links, pair.left, pair.right.low, vertex);
            let right = self.trimmed(links, pair.right, left.low, vertex);
            self.push_pair(ConflictPair { left, right });
        }
    }
}

// Says whether the highest edge of `interval` returns to `vertex`.
#[inline(always)]
fn leads_to(links: &Links, interval: Interval, vertex: u32) -> bool {
    !interval.is_empty() && links.head.get(interval.high) == vertex
}

// Runs the testing phase over the depth-first tree of `root`, after the orientation phase. Returns false at a conflict,
// which the tables of `search` then hold.
fn agrees_from(links: &Links, search: &mut Search, root: u32) -> bool {
    search.top = 0;
    let mut vertex = root;
    let mut dart = search.leaving.get(root);
    for _ in 0..MANY_STEPS {
        if dart == NONE {
            let parent = search.parent.get(vertex);
            if parent == NONE {
                return true;
            }
            vertex = links.tail(parent);
            search.drop_return_edges(links, vertex);
            if !search.integrate(parent, vertex) {
                return false;
            }
            dart = search.chain.get(parent);
            continue;
        }
        let head = links.head.get(dart);
        if search.parent.get(head) == dart {
            search.stack_bottom.set(dart, search.top);
            vertex = head;
            dart = search.leaving.get(head);
        } else {
            if !search.take_edge(dart, vertex) {
                return false;
            }
            dart = search.chain.get(dart);
        }
    }
    false
}

/// Runs the testing phase in `search`: says whether the return edges can be put on two sides without a conflict. If
/// not, `search` holds where the conflict showed.
pub fn agrees(links: &Links, search: &mut Search) -> bool {
    search.ties.count = 0;
    for place in 0..search.root_count {
        let root = search.roots.get(place);
        if !agrees_from(links, search, root) {
            return false;
        }
    }
    true
}
