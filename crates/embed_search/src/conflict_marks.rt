//! Marks the edges that together show a conflict of the left-right test, so that they are nonplanar.
use left_right_test::{
    ByEdge, ByVertex, EDGE_ZEROS, LeftRightTest, NONE, VERTEX_ZEROS, branch_of, near_edge,
};

/// The mark of an edge of the nonplanar part.
pub const IN_PART: u32 = 1;

// An added mark of a tree edge: a marked return edge ends at its upper end.
const ENDS_ABOVE: u32 = 2;

// An added mark of a tree edge: a marked return edge begins at its lower end.
const BEGINS_BELOW: u32 = 4;

// The mark of a return edge of the nonplanar part.
const RETURNS: u32 = 9;

/// Returns in which pass `Kernel::chain_without` chains an edge with the marks `mark`: 2 for a return edge, 0 for a
/// tree edge with both added marks, else 1.
pub fn turn_of(mark: u32) -> u32 {
    if mark & RETURNS == RETURNS {
        2
    } else if mark == IN_PART | ENDS_ABOVE | BEGINS_BELOW {
        0
    } else {
        1
    }
}

/// The marks of the edges that show a conflict.
#[derive(Clone, Copy)]
pub struct ConflictMarks {
    // for each vertex the least height to which the way up from it is marked, or none
    cover: ByVertex,
    // for each vertex what is marked of the return edges that end at it or leave it
    ends: ByVertex,
    /// For each edge how it is marked, or 0.
    pub marks: ByEdge,
}

impl ConflictMarks {
    /// No marks.
    pub const FRESH: ConflictMarks = ConflictMarks {
        cover: VERTEX_ZEROS,
        ends: VERTEX_ZEROS,
        marks: EDGE_ZEROS,
    };

    // Marks the return edge of dart `edge`, and the tree path between its ends.
    fn mark(&mut self, test: &LeftRightTest, edge: u32) {
        let (links, search) = (&test.links, &test.search);
        let end = links.head.get(edge);
        let height = search.height.get(end);
        let mut vertex = links.tail(edge);
        self.marks.set(edge >> 1, RETURNS);
        self.ends.set(end, self.ends.get(end) | ENDS_ABOVE);
        self.ends.set(vertex, self.ends.get(vertex) | BEGINS_BELOW);
        for _ in 0..links.vertices {
            if self.cover.get(vertex) <= height || vertex == end {
                return;
            }
            self.cover.set(vertex, height);
            let parent = search.parent.get(vertex);
            self.marks.set(parent >> 1, IN_PART);
            vertex = links.tail(parent);
        }
    }

    // Marks the return edge that leads to the lowpoint of `dart`, with its tree path.
    fn mark_lowest(&mut self, test: &LeftRightTest, dart: u32) {
        self.mark(test, test.search.lowpt_edge.get(dart));
    }

    // Marks the return edge that leads to the lowpoint of the dart of `vertex` along which `edge` returns, with its
    // tree path.
    fn mark_branch(&mut self, test: &LeftRightTest, edge: u32, vertex: u32) {
        self.mark_lowest(test, branch_of(&test.links, &test.search, edge, vertex));
    }

    // Marks the return edges that make the ties of the test's ring, a cycle of constraints on sides, with tree paths.
    fn mark_ties(&mut self, test: &LeftRightTest) {
        let ties = &test.search.ties;
        let mut edge = test.ring.other;
        for _ in 0..ties.count {
            let end = test.ring.way.get(edge);
            if end == NONE {
                return;
            }
            let tie = end >> 1;
            let one = ties.one.get(tie);
            let dart = ties.dart.get(tie);
            let vertex = test.links.tail(dart);
            self.mark(test, one);
            self.mark(test, ties.other.get(tie));
            if ties.turn.get(tie) == 0 {
                self.mark_lowest(test, test.search.leaving.get(vertex));
            } else {
                self.mark_lowest(test, dart);
                self.mark_branch(test, one, vertex);
            }
            edge = near_edge(ties, end);
        }
    }

    // Marks the return edges that force the ends of the test's ring (of ties) to one side, with their tree paths.
    fn mark_bound(&mut self, test: &LeftRightTest) {
        let search = &test.search;
        let vertex = search.failed;
        if search.meeting == NONE {
            self.mark_lowest(test, search.leaving.get(vertex));
        } else {
            self.mark(test, search.meeting);
            self.mark_lowest(test, search.failed_dart);
            self.mark_branch(test, test.ring.one, vertex);
            self.mark_branch(test, test.ring.other, vertex);
        }
    }

    /// Marks edges, together nonplanar, that show the conflict of `test`. Tree edges also get marks of the marked
    /// return edges at their ends.
    pub fn mark_conflict(&mut self, test: &LeftRightTest) {
        let (links, search) = (&test.links, &test.search);
        self.marks.fill(links.darts / 2, 0);
        self.cover.fill(links.vertices, NONE);
        self.ends.fill(links.vertices, 0);
        self.mark(test, test.ring.one);
        self.mark_ties(test);
        self.mark_bound(test);
        for vertex in 0..links.vertices {
            if self.cover.get(vertex) != NONE {
                let parent = search.parent.get(vertex);
                let above = self.ends.get(links.tail(parent)) & ENDS_ABOVE;
                let below = self.ends.get(vertex) & BEGINS_BELOW;
                self.marks.set(parent >> 1, IN_PART | above | below);
            }
        }
    }
}
