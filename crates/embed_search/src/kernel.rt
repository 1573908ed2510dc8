//! A nonplanar part of a graph as a kernel: its paths through vertices of degree two are replaced by single edges.
use crate::conflict_marks::{IN_PART, turn_of};
use left_right_test::{
    ByDart, ByEdge, ByVertex, DART_ZEROS, EDGE_ZEROS, Edges, Links, NONE, VERTEX_ZEROS, minus,
    plus, twice,
};

/// The kernel, and the tables for its reduction. Its vertices are numbered anew.
#[derive(Clone, Copy)]
pub struct Kernel {
    /// Its edges.
    pub edges: Edges,
    /// For each edge whether the others are planar, as 1 or 0.
    pub needed: ByEdge,
    // for each edge its marks, those of all edges of its path
    marks: ByEdge,
    // for each edge one of those of its path
    path: ByEdge,
    // for each edge of the graph the next one of its path, in a ring
    ring: ByEdge,
    // for each edge the next one of those that have become one, in a ring
    merged: ByEdge,
    // for each edge whether it is left, as 0 where not
    left: ByEdge,
    // a stack of vertices
    work: ByDart,
    // how many vertices are on it
    waiting: u32,
    // for each vertex its new number
    number: ByVertex,
    // for each vertex how many edges it has
    degree: ByVertex,
}

impl Kernel {
    /// The empty kernel.
    pub const FRESH: Kernel = Kernel {
        edges: Edges::FRESH,
        needed: EDGE_ZEROS,
        marks: EDGE_ZEROS,
        path: EDGE_ZEROS,
        ring: EDGE_ZEROS,
        merged: EDGE_ZEROS,
        left: EDGE_ZEROS,
        work: DART_ZEROS,
        waiting: 0,
        number: VERTEX_ZEROS,
        degree: VERTEX_ZEROS,
    };

    /// Says whether a nonplanar kernel in which all degrees are three or more is K5 or K3,3, by its counts alone.
    pub fn is_least(&self) -> bool {
        self.edges.count == 9 || self.edges.vertices == 5 && self.edges.count == 10
    }

    /// Returns the first edge that is not known to be needed to keep the kernel nonplanar, or `NONE`.
    pub fn first_loose(&self) -> u32 {
        for edge in 0..self.edges.count {
            if self.needed.get(edge) == 0 {
                return edge;
            }
        }
        NONE
    }

    // Returns how many edges merge with others at `vertex` once one of its edges is removed: 1 at degree three, else 0.
    #[inline(always)]
    fn smoothed_at(&self, vertex: u32) -> u32 {
        if self.degree.get(vertex) == 3 { 1 } else { 0 }
    }

    /// Returns how many edges the kernel has once `edge` is removed and paths through degree two are merged, if no two
    /// merged paths join the same vertices.
    pub fn paths_without(&self, edge: u32) -> u32 {
        let one = self.smoothed_at(self.edges.one.get(edge));
        let other = self.smoothed_at(self.edges.other.get(edge));
        minus(self.edges.count, plus(1, plus(one, other)))
    }

    /// Removes the edge `out` from the kernel, and reduces the others as `keep_marked` does. It overwrites `links`.
    pub fn drop(&mut self, links: &mut Links, out: u32) {
        for edge in 0..self.edges.count {
            self.marks.set(edge, IN_PART);
        }
        self.marks.set(out, 0);
        self.keep_marked(links);
    }

    /// Replaces the kernel's edges by those of a graph's `edges` whose entry in `marks` is not 0. Their ends, taken
    /// from the graph's darts in `links`, are written to `edges` too.
    pub fn load(&mut self, edges: &mut Edges, links: &Links, marks: &ByEdge) {
        self.edges.vertices = edges.vertices;
        self.edges.count = 0;
        for edge in 0..edges.count {
            let mark = marks.get(edge);
            if mark != 0 {
                let place = self.edges.count;
                self.path.set(place, edge);
                self.needed.set(place, 0);
                self.marks.set(place, mark);
                self.ring.set(edge, edge);
                edges.take_ends(links, edge);
                self.edges.push(edges.one.get(edge), edges.other.get(edge));
            }
        }
    }

    /// Sets the mark of each kernel edge to its entry in `marks`, which is 0 outside the nonplanar part.
    pub fn mark(&mut self, marks: &ByEdge) {
        for edge in 0..self.edges.count {
            self.marks.set(edge, marks.get(edge));
        }
    }

    /// Chains the kernel's edges except `out` (or all, for `NONE`) in `links`, for the next search. That search first
    /// tries the edges that the last one marked as return edges. Last it tries tree edges at whose upper end a marked
    /// return edge ends, and at whose lower end one begins.
    pub fn chain_without(&self, links: &mut Links, out: u32) {
        links.begin_chains(self.edges.vertices);
        links.darts = twice(self.edges.count);
        for turn in 0..3u32 {
            for edge in 0..self.edges.count {
                if edge != out && turn_of(self.marks.get(edge)) == turn {
                    links.chain_edge(&self.edges, edge);
                }
            }
        }
    }

    /// Replaces the lists of `links` by the darts of all graph `edges` on paths of the kernel, linked forwards only.
    pub fn link_paths(&self, links: &mut Links, edges: &Edges) {
        links.begin(edges);
        for path in 0..self.edges.count {
            let first = self.path.get(path);
            let mut edge = first;
            for _ in 0..edges.count {
                links.chain_next(edge, edges.one.get(edge), edges.other.get(edge));
                edge = self.ring.get(edge);
                if edge == first {
                    break;
                }
            }
        }
    }

    // Joins the paths of all edges merged into `edge` to one, and adds their marks to those of `edge`. Two rings
    // (cyclic lists of the edges of a path) become one where their successors are exchanged.
    fn join_merged(&mut self, edge: u32) {
        let mut other = self.merged.get(edge);
        for _ in 0..self.edges.count {
            if other == edge {
                return;
            }
            let needed = self.needed.get(edge) | self.needed.get(other);
            let mark = self.marks.get(edge) | self.marks.get(other);
            self.needed.set(edge, needed);
            self.marks.set(edge, mark);
            let one = self.path.get(edge);
            let two = self.path.get(other);
            let after = self.ring.get(one);
            self.ring.set(one, self.ring.get(two));
            self.ring.set(two, after);
            other = self.merged.get(other);
        }
    }

    // Numbers the vertices that have darts in `links` anew, in rising order. Keeps only the edges flagged in `left`,
    // with their ends in `links`.
    fn renumber(&mut self, links: &Links) {
        let mut vertices = 0u32;
        for vertex in 0..links.vertices {
            let degree = links.degree.get(vertex);
            self.number.set(vertex, vertices);
            if degree > 0 {
                self.degree.set(vertices, degree);
                vertices = plus(vertices, 1);
            }
        }
        self.edges.vertices = vertices;
        let count = self.edges.count;
        self.edges.count = 0;
        for edge in 0..count {
            if self.left.get(edge) != 0 {
                let place = self.edges.count;
                self.path.set(place, self.path.get(edge));
                self.needed.set(place, self.needed.get(edge));
                self.marks.set(place, self.marks.get(edge));
                let one = self.number.get(links.tail(twice(edge)));
                let other = self.number.get(links.head.get(twice(edge)));
                self.edges.push(one, other);
            }
        }
    }

    /// Keeps only edges whose mark is not 0. Removes those with an end of degree one and paths parallel to an edge, and
    /// replaces each other path by one edge. It overwrites `links`, and numbers the vertices anew.
    pub fn keep_marked(&mut self, links: &mut Links) {
        links.begin(&self.edges);
        for edge in 0..self.edges.count {
            let mark = self.marks.get(edge);
            self.left.set(edge, mark);
            self.merged.set(edge, edge);
            if mark != 0 {
                links.put_edge(&self.edges, edge);
            }
        }
        self.reduce(links);
        for edge in 0..self.edges.count {
            if self.left.get(edge) != 0 {
                self.join_merged(edge);
            }
        }
        self.renumber(links);
    }

    // Pushes `vertex` on the stack of vertices to reduce, if it has one or two darts in `links`.
    #[inline(always)]
    fn await_few(&mut self, links: &Links, vertex: u32) {
        let degree = links.degree.get(vertex);
        if degree == 1 || degree == 2 {
            self.work.set(self.waiting, vertex);
            self.waiting = plus(self.waiting, 1);
        }
    }

    // Removes the edge of `dart`, which leaves `vertex`, from `links`. Pushes its other end on the stack, if one or two
    // darts are left there.
    fn drop_edge(&mut self, links: &mut Links, dart: u32, vertex: u32) {
        let head = links.head.get(dart);
        links.take_out(dart, vertex);
        links.take_out(dart ^ 1, head);
        self.left.set(dart >> 1, 0);
        self.await_few(links, head);
    }

    // Merges the two edges of `vertex` in `links` into one with the number of the first. Removes both where their other
    // ends are adjacent, so that no edges become parallel.
    fn smooth(&mut self, links: &mut Links, vertex: u32) {
        let one = links.first.get(vertex);
        let other = links.next.get(one);
        let a = links.head.get(one);
        let b = links.head.get(other);
        if links.has(a, b) {
            self.drop_edge(links, one, vertex);
            self.drop_edge(links, other, vertex);
            return;
        }
        links.head.set(one ^ 1, b);
        links.put_for(one, other ^ 1, b);
        links.first.set(vertex, NONE);
        links.degree.set(vertex, 0);
        links.head.set(one, a);
        self.left.set(other >> 1, 0);
        let after = self.merged.get(one >> 1);
        self.merged.set(one >> 1, self.merged.get(other >> 1));
        self.merged.set(other >> 1, after);
    }

    // Reduces the graph of `links` until no vertex has degree one or two: removes edges at vertices of degree one, and
    // merges the two at a vertex of degree two.
    fn reduce(&mut self, links: &mut Links) {
        self.waiting = 0;
        for vertex in 0..links.vertices {
            self.await_few(links, vertex);
        }
        for _ in 0..plus(links.vertices, links.darts) {
            if self.waiting == 0 {
                return;
            }
            self.waiting = minus(self.waiting, 1);
            let vertex = self.work.get(self.waiting);
            let degree = links.degree.get(vertex);
            if degree == 1 {
                let dart = links.first.get(vertex);
                self.drop_edge(links, dart, vertex);
            } else if degree == 2 {
                self.smooth(links, vertex);
            }
        }
    }
}
