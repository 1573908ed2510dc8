//! The orientation phase (first search) in a graph of at most 27 vertices, with neighbours as bits of a number. An
//! edge's number is the index of its pair in the graph's line, by which the edges come in the order of `Edges::read`.
use crate::dart_lists::Links;
use crate::fixed_tables::{NONE, minus, plus, twice};
use crate::search_tables::Search;
use graphs::Graph;

/// The greatest number of vertices of a graph that is read as bits. The bits of one vertex fewer, and those of a
/// byte, fit in one number.
pub const FEW: u32 = 27;

// A table of 32 bit sets, each a number.
#[derive(Clone, Copy)]
struct Bits {
    cells: [u32; 32],
}

impl Bits {
    // The table of empty sets.
    const FRESH: Bits = Bits { cells: [0; 32] };

    // Returns the set at index `place` modulo 32.
    #[inline(always)]
    fn get(&self, place: u32) -> u32 {
        self.cells[place as usize % 32]
    }

    // Writes the set at index `place` modulo 32.
    #[inline(always)]
    fn set(&mut self, place: u32, bits: u32) {
        self.cells[place as usize % 32] = bits;
    }
}

/// A graph of few vertices as sets of neighbours, and the tables of the search in it.
#[derive(Clone, Copy)]
pub struct Few {
    // for each vertex the set of its neighbours
    near: Bits,
    // for each height the vertex there on the path from the root to the search
    way: Bits,
    // for each height the set of lesser heights to which an edge returns from that vertex or a descendant
    returns: Bits,
}

// The pairs of one vertex with each lesser one, as they stand in a graph6 line.
#[derive(Clone, Copy)]
struct Pairs {
    vertex: u32,
    // its bit
    own: u32,
    // how many pairs are before them
    first: u32,
}

// The position of the first search in a small graph: its vertex, and what is known of the dart to it.
#[derive(Clone, Copy)]
struct Stand {
    vertex: u32,
    // the dart to the vertex, or none at a root
    parent: u32,
    // how many steps the vertex is below its root
    height: u32,
    // the heights to which an edge returns from it or from beyond it
    returns: u32,
}

// Returns the set that holds `number` alone.
#[inline(always)]
fn bit_of(number: u32) -> u32 {
    1 << (number & 31)
}

// Returns the greatest member of the set `bits`, which is not empty.
#[inline(always)]
fn greatest(bits: u32) -> u32 {
    31 ^ bits.leading_zeros()
}

// Returns the number of the first dart of the pairs of `vertex`: twice the number of pairs of lesser vertices.
#[inline(always)]
fn darts_before(vertex: u32) -> u32 {
    vertex.wrapping_mul(minus(vertex, 1))
}

// Returns the number of the dart from `vertex` to `head`.
#[inline(always)]
fn dart_between(vertex: u32, head: u32) -> u32 {
    if head < vertex {
        plus(darts_before(vertex), twice(head)) | 1
    } else {
        plus(darts_before(head), twice(vertex))
    }
}

// Returns the sort key of a dart to `head` of nesting depth `depth`: of two as deep, that to the greater head is first.
#[inline(always)]
fn order_of(depth: u32, head: u32) -> u32 {
    (depth << 5) | (head ^ 31)
}

impl Few {
    /// The tables of a graph without vertices.
    pub const FRESH: Few = Few {
        near: Bits::FRESH,
        way: Bits::FRESH,
        returns: Bits::FRESH,
    };

    // Reads the edges from the vertex of `at` to lesser ones, given as the bits of `row`, of which the lowest is for
    // the vertex just before it. Fills in the neighbour sets of both ends and, in `links`, the heads of the darts.
    #[inline(always)]
    fn take_row(&mut self, links: &mut Links, at: Pairs, row: u32) {
        let before = minus(at.vertex, 1);
        let mut row = row;
        let mut near = 0u32;
        for _ in 0..row.count_ones() {
            let head = minus(before, row.trailing_zeros());
            let dart = twice(plus(at.first, head));
            row = row & minus(row, 1);
            near = near | bit_of(head);
            self.near.set(head, self.near.get(head) | at.own);
            links.head.set(dart, at.vertex);
            links.head.set(dart ^ 1, head);
        }
        self.near.set(at.vertex, near);
    }

    /// Reads the edges of `graph`, of at most `FEW` vertices, into neighbour sets and into `links`: heads, degrees and
    /// counts, but no lists. Returns the edge count.
    pub fn read(&mut self, graph: &Graph, links: &mut Links) -> u32 {
        self.near = Bits::FRESH;
        let mut held = 0u32;
        let mut count = 0u32;
        let mut at = Pairs {
            vertex: 1,
            own: 2,
            first: 0,
        };
        for byte in graph.body() {
            held = (held << 6) | (u32::from(*byte).wrapping_sub(63) & 63);
            count = plus(count, 6);
            for _ in 0..3u32 {
                if count < at.vertex {
                    break;
                }
                count = minus(count, at.vertex);
                let row = (held >> (count & 31)) & minus(at.own, 1);
                self.take_row(links, at, row);
                at.first = plus(at.first, at.vertex);
                at.vertex = plus(at.vertex, 1);
                at.own = at.own << 1;
            }
        }
        links.vertices = u32::from(graph.n());
        links.darts = darts_before(links.vertices);
        let mut darts = 0u32;
        for vertex in 0..links.vertices {
            let degree = self.near.get(vertex).count_ones();
            links.degree.set(vertex, degree);
            darts = plus(darts, degree);
        }
        darts / 2
    }

    // Returns the heights of `vertices`, a set of vertices on the path from the root to the search, as bits.
    #[inline(always)]
    fn heights(search: &Search, vertices: u32) -> u32 {
        let mut rest = vertices;
        let mut heights = 0u32;
        for _ in 0..vertices.count_ones() {
            heights = heights | bit_of(search.height.get(rest.trailing_zeros()));
            rest = rest & minus(rest, 1);
        }
        heights
    }

    // Chains in `search` the return edges from `vertex` to ancestors at `heights` (bit h for height h), by rising
    // height, as the darts that leave it.
    #[inline(always)]
    fn chain_returns(&self, search: &mut Search, vertex: u32, heights: u32) {
        let mut rest = heights;
        let mut last = NONE;
        for _ in 0..heights.count_ones() {
            let low = rest.trailing_zeros();
            let head = self.way.get(low);
            let dart = dart_between(vertex, head);
            search.end_dart(dart, low);
            search.depth.set(dart, order_of(twice(low), head));
            search.chain.set(last, dart);
            last = dart;
            rest = rest & minus(rest, 1);
        }
        search.chain.set(last, NONE);
        search.last.set(vertex, last);
        let first = search.chain.get(NONE);
        search.leaving.set(vertex, first);
    }

    // Moves the search from `at` to its unreached neighbour `head`, and returns the position there. Saves `at` in
    // `self` by its height. In `search` it sets the parent and height of `head`, and chains the return edges from it.
    // They lead to `above`, the set of its neighbours that are proper ancestors of the vertex of `at`.
    #[inline(always)]
    fn descend_to(&mut self, search: &mut Search, at: Stand, head: u32, above: u32) -> Stand {
        let height = plus(at.height, 1);
        let dart = dart_between(at.vertex, head);
        self.way.set(at.height, at.vertex);
        self.returns.set(at.height, at.returns);
        search.parent.set(head, dart);
        search.height.set(head, height);
        let returns = Few::heights(search, above);
        self.chain_returns(search, head, returns);
        Stand {
            vertex: head,
            parent: dart,
            height,
            returns,
        }
    }

    // Moves the search from `at` back to its parent, and returns the position there, with the heights to which edges
    // return joined. In `search` it sets the lowpoint of the dart between, and inserts it by nesting depth among those
    // that leave the parent.
    #[inline(always)]
    fn return_to_parent(&self, search: &mut Search, at: Stand) -> Stand {
        let height = minus(at.height, 1);
        let vertex = self.way.get(height);
        let returns = at.returns & minus(bit_of(height), 1);
        let low = (returns | bit_of(height)).trailing_zeros();
        let chordal = if returns & minus(returns, 1) == 0 {
            0
        } else {
            1
        };
        search.end_dart(at.parent, low);
        search.put_in_order(
            at.parent,
            vertex,
            order_of(plus(twice(low), chordal), at.vertex),
        );
        Stand {
            vertex,
            parent: search.parent.get(vertex),
            height,
            returns: returns | self.returns.get(height),
        }
    }

    // Orients the edges of the component of `root` in `search`, by a depth-first search. `fresh` is the set of
    // unreached vertices; returns those that are still unreached.
    fn orient_from(&mut self, search: &mut Search, root: u32, fresh: u32) -> u32 {
        let mut fresh = fresh ^ bit_of(root);
        // the set of vertices on the path to the search
        let mut way = 0u32;
        let mut at = Stand {
            vertex: root,
            parent: NONE,
            height: 0,
            returns: 0,
        };
        search.parent.set(root, NONE);
        search.height.set(root, 0);
        search.leaving.set(root, NONE);
        for _ in 0..64u32 {
            let ahead = self.near.get(at.vertex) & fresh;
            if ahead != 0 {
                let head = greatest(ahead);
                fresh = fresh ^ bit_of(head);
                let above = self.near.get(head) & way;
                way = way | bit_of(at.vertex);
                at = self.descend_to(search, at, head, above);
                continue;
            }
            if at.parent == NONE {
                break;
            }
            at = self.return_to_parent(search, at);
            way = way ^ bit_of(at.vertex);
        }
        fresh
    }

    /// Orients all edges in `search`, like `orientation::orient_all` from vertex 0 on. Both take the neighbours of a
    /// vertex from the greatest to the least; there, a list begins with the last edge read.
    pub fn orient_all(&mut self, links: &Links, search: &mut Search) {
        search.root_count = 0;
        let mut fresh = minus(bit_of(links.vertices), 1);
        for _ in 0..links.vertices {
            if fresh == 0 {
                break;
            }
            let root = fresh.trailing_zeros();
            if self.near.get(root) == 0 {
                fresh = fresh ^ bit_of(root);
                search.parent.set(root, NONE);
                search.leaving.set(root, NONE);
                continue;
            }
            fresh = self.orient_from(search, root, fresh);
            search.note_root(root);
        }
    }
}
