//! Doubly linked lists of the darts at each vertex. The darts of edge e are 2e and 2e + 1, each the other's twin.
use crate::fixed_tables::{ByDart, ByVertex, DART_ZEROS, NONE, VERTEX_ZEROS, minus, plus, twice};
use crate::graph_edges::Edges;

/// For each vertex the doubly linked list of its darts.
#[derive(Clone, Copy)]
pub struct Links {
    /// How many vertices there are.
    pub vertices: u32,
    /// How many darts there may be.
    pub darts: u32,
    /// For each vertex the first of its darts.
    pub first: ByVertex,
    /// For each vertex how many darts it has.
    pub degree: ByVertex,
    /// For each dart the next in its list.
    pub next: ByDart,
    /// For each dart the one before it.
    pub prev: ByDart,
    /// For each dart the vertex that it leads to.
    pub head: ByDart,
}

impl Links {
    /// The empty lists, of no vertices.
    pub const FRESH: Links = Links {
        vertices: 0,
        darts: 0,
        first: VERTEX_ZEROS,
        degree: VERTEX_ZEROS,
        next: DART_ZEROS,
        prev: DART_ZEROS,
        head: DART_ZEROS,
    };

    /// Empties all lists, for as many vertices and edges as `edges` has.
    pub fn begin(&mut self, edges: &Edges) {
        self.vertices = edges.vertices;
        self.darts = twice(edges.count);
        self.first.fill(edges.vertices, NONE);
        self.degree.fill(edges.vertices, 0);
    }

    /// Returns the vertex that `dart` leaves.
    #[inline(always)]
    pub fn tail(&self, dart: u32) -> u32 {
        self.head.get(dart ^ 1)
    }

    /// Puts `dart`, which leads to `head`, at the front of the list of `vertex`, and counts it.
    #[inline(always)]
    pub fn put_first(&mut self, dart: u32, vertex: u32, head: u32) {
        let first = self.first.get(vertex);
        self.head.set(dart, head);
        self.next.set(dart, first);
        self.prev.set(dart, NONE);
        self.prev.set(first, dart);
        self.first.set(vertex, dart);
        self.count_dart(vertex);
    }

    // Puts `dart`, which leads to `head`, at the front of the list of `vertex`, without a link back to it and without
    // counting it.
    #[inline(always)]
    fn chain_first(&mut self, dart: u32, vertex: u32, head: u32) {
        self.head.set(dart, head);
        self.next.set(dart, self.first.get(vertex));
        self.first.set(vertex, dart);
    }

    /// Empties the lists of `vertices` vertices, for `chain_edge` or `chain_next` to fill, linked forwards only.
    pub fn begin_chains(&mut self, vertices: u32) {
        self.vertices = vertices;
        self.first.fill(vertices, NONE);
    }

    /// Puts both darts of edge number `edge` of `edges` at the fronts of their lists, which are linked forwards only.
    #[inline(always)]
    pub fn chain_edge(&mut self, edges: &Edges, edge: u32) {
        self.chain(edge, edges.one.get(edge), edges.other.get(edge));
    }

    // Puts both darts of edge number `edge`, between `a` and `b`, at the fronts of their lists, linked forwards only.
    #[inline(always)]
    fn chain(&mut self, edge: u32, a: u32, b: u32) {
        self.chain_first(twice(edge), a, b);
        self.chain_first(twice(edge) ^ 1, b, a);
    }

    // Raises the degree of `vertex` by one.
    #[inline(always)]
    fn count_dart(&mut self, vertex: u32) {
        self.degree.set(vertex, plus(self.degree.get(vertex), 1));
    }

    /// Puts both darts of edge `edge`, from `a` to `b`, first in their lists, linked forwards only, and counts them.
    #[inline(always)]
    pub fn chain_next(&mut self, edge: u32, a: u32, b: u32) {
        self.chain(edge, a, b);
        self.count_dart(a);
        self.count_dart(b);
    }

    /// Puts both darts of edge number `edge` of `edges` at the fronts of their lists, linked both ways, and counted.
    #[inline(always)]
    pub fn put_edge(&mut self, edges: &Edges, edge: u32) {
        let a = edges.one.get(edge);
        let b = edges.other.get(edge);
        self.put_first(twice(edge), a, b);
        self.put_first(twice(edge) ^ 1, b, a);
    }

    /// Replaces the lists by those of the darts of all `edges`, linked both ways and counted.
    pub fn put_all(&mut self, edges: &Edges) {
        self.begin(edges);
        for edge in 0..edges.count {
            self.put_edge(edges, edge);
        }
    }

    // Links `before` and `after` as neighbours in the list of `vertex`. NONE stands for the position before the first
    // dart or after the last.
    fn join(&mut self, vertex: u32, before: u32, after: u32) {
        if before == NONE {
            self.first.set(vertex, after);
        } else {
            self.next.set(before, after);
        }
        self.prev.set(after, before);
    }

    /// Removes `dart` from the list of `vertex`, which is linked both ways. The degree of `vertex` falls by one.
    pub fn take_out(&mut self, dart: u32, vertex: u32) {
        let before = self.prev.get(dart);
        let after = self.next.get(dart);
        self.join(vertex, before, after);
        self.degree.set(vertex, minus(self.degree.get(vertex), 1));
    }

    /// Puts `dart` in the position of the dart `old` in the list of `vertex`.
    pub fn put_for(&mut self, dart: u32, old: u32, vertex: u32) {
        let before = self.prev.get(old);
        let after = self.next.get(old);
        self.join(vertex, before, dart);
        self.join(vertex, dart, after);
    }

    /// Says whether `u` and `v` are adjacent, by the shorter of their lists.
    pub fn has(&self, u: u32, v: u32) -> bool {
        if self.degree.get(u) < self.degree.get(v) {
            self.leads(u, v)
        } else {
            self.leads(v, u)
        }
    }

    // Says whether a dart of `u` leads to `v`.
    fn leads(&self, u: u32, v: u32) -> bool {
        let mut dart = self.first.get(u);
        for _ in 0..self.degree.get(u) {
            if self.head.get(dart) == v {
                return true;
            }
            dart = self.next.get(dart);
        }
        false
    }
}
