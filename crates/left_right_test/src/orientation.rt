//! The orientation phase (first search) orients edges, finds lowpoints, and sorts each vertex's darts by nesting depth.
use crate::dart_lists::Links;
use crate::fixed_tables::{NONE, lesser, minus, plus, twice};
use crate::search_tables::{Search, steps};

// The position of the first search: its vertex, and what is known so far of the dart by which it came.
#[derive(Clone, Copy)]
struct Stand {
    vertex: u32,
    // how many steps the vertex is below its root
    height: u32,
    // the dart to it, or none at a root
    parent: u32,
    // the lowpoint of that dart
    low: u32,
    // its second lowpoint
    second: u32,
}

// Where the search stands before it goes down to a root. Nothing reads the lowpoints of a root's dart, which is none.
const ABOVE: Stand = Stand {
    vertex: NONE,
    height: u32::MAX,
    parent: NONE,
    low: NONE,
    second: NONE,
};

impl Stand {
    // Returns the position with the lowpoints `low` and `second` of the dart to its vertex.
    #[inline(always)]
    fn with(self, low: u32, second: u32) -> Stand {
        Stand {
            vertex: self.vertex,
            height: self.height,
            parent: self.parent,
            low,
            second,
        }
    }

    // Returns the position with its lowpoints updated by those of one more dart of the vertex, `low` and `second`.
    #[inline(always)]
    fn with_returns(self, low: u32, second: u32) -> Stand {
        if low < self.low {
            self.with(low, lesser(self.low, second))
        } else if low > self.low {
            self.with(self.low, lesser(self.second, low))
        } else {
            self.with(self.low, lesser(self.second, second))
        }
    }
}

// Moves the search from `at` along `dart` to its unreached head `head`, and returns the position there. In `search` it
// saves the lowpoints of `at`, and sets the parent, the height and an empty chain of leaving darts for `head`.
#[inline(always)]
fn descend_to(search: &mut Search, at: Stand, dart: u32, head: u32) -> Stand {
    let height = plus(at.height, 1);
    search.lowpt.set(at.parent, at.low);
    search.lowpt2.set(at.parent, at.second);
    search.parent.set(head, dart);
    search.height.set(head, height);
    search.leaving.set(head, NONE);
    Stand {
        vertex: head,
        height,
        parent: dart,
        low: at.height,
        second: at.height,
    }
}

// Moves the search from `at` back to its parent, and returns the position there, with its lowpoints updated. In
// `search` it sets the lowpoint of the dart between, and inserts it by nesting depth among those that leave the parent.
#[inline(always)]
fn return_to_parent(links: &Links, search: &mut Search, at: Stand) -> Stand {
    let vertex = links.tail(at.parent);
    let height = minus(at.height, 1);
    let chordal = if at.second < height { 1 } else { 0 };
    let parent = search.parent.get(vertex);
    let above = Stand {
        vertex,
        height,
        parent,
        low: search.lowpt.get(parent),
        second: search.lowpt2.get(parent),
    };
    search.end_dart(at.parent, at.low);
    search.put_in_order(at.parent, vertex, plus(twice(at.low), chordal));
    above.with_returns(at.low, at.second)
}

// Orients all edges of the component of `root` in `search`. Does nothing if `root` was reached or has no darts.
fn orient_from(links: &Links, search: &mut Search, root: u32) {
    let mut dart = links.first.get(root);
    if search.is_reached(root) || dart == NONE {
        return;
    }
    let mut at = descend_to(search, ABOVE, NONE, root);
    for _ in 0..steps(links.vertices, links.darts) {
        if dart == NONE {
            if at.parent == NONE {
                return;
            }
            dart = links.next.get(at.parent);
            at = return_to_parent(links, search, at);
            continue;
        }
        let head = links.head.get(dart);
        let low = search.height.get(head);
        if low == NONE {
            at = descend_to(search, at, dart, head);
            dart = links.first.get(head);
            continue;
        }
        if plus(low, 1) < at.height {
            // a return edge, since it leads above the parent; it has no second lowpoint
            search.end_dart(dart, low);
            search.put_in_order(dart, at.vertex, twice(low));
            at = at.with_returns(low, u32::MAX);
        }
        dart = links.next.get(dart);
    }
}

/// Orients all edges in `search`, beginning at `search.root`. Records the roots in rising order, and sorts the darts
/// that leave each vertex by rising nesting depth.
pub fn orient_all(links: &Links, search: &mut Search) {
    search.height.fill(links.vertices, NONE);
    search.root_count = 0;
    let first = search.root;
    orient_from(links, search, first);
    for root in 0..links.vertices {
        if root != first && search.is_reached(root) {
            continue;
        }
        if links.first.get(root) == NONE {
            search.parent.set(root, NONE);
            search.leaving.set(root, NONE);
            continue;
        }
        orient_from(links, search, root);
        search.note_root(root);
    }
}
