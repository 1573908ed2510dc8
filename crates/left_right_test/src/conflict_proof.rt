//! Checks that a conflict shows a graph nonplanar: by a rooted forest and a ring of ties between return edges.
ghost use Rattle.std.specs.Prelude.{true, false, IfSome, IsTrue};
ghost use Rattle.left_right_check.specs.Ties.{AreTied, HasNoMap};

use crate::conflict_ring::{OddRing, branch_of, near_edge};
use crate::dart_lists::Links;
use crate::fixed_tables::{ByVertex, NONE, VERTEX_ZEROS};
use crate::planarity_test::LeftRightTest;
use crate::search_tables::Search;
use graphs::Graph;
use left_right_check::{Fork, Pair, ReturnEdge, RootedForest, is_forest, turned};

/// The rooted forest of a search, by parents and depths.
#[derive(Clone, Copy)]
pub struct Forest {
    /// For each vertex its parent.
    pub parents: ByVertex,
    /// For each vertex how many steps it is below its root.
    pub depths: ByVertex,
}

impl Forest {
    /// The tables of no forest.
    pub const FRESH: Forest = Forest {
        parents: VERTEX_ZEROS,
        depths: VERTEX_ZEROS,
    };

    /// Overwrites the tables by the forest of `search`. A root gets depth 0, and its parent entry stays as it was.
    pub fn read(&mut self, links: &Links, search: &Search) {
        for vertex in 0..links.vertices {
            let dart = search.parent.get(vertex);
            if dart == NONE {
                self.depths.set(vertex, 0);
            } else {
                self.parents.set(vertex, links.tail(dart));
                self.depths.set(vertex, search.height.get(vertex));
            }
        }
    }
}

// Converts `number` to a vertex by its last 16 bits.
#[inline(always)]
fn vertex(number: u32) -> u16 {
    (number & 0xffff) as u16
}

/// The conflict of a search, as a ring of ties shows it in a rooted forest of the graph.
#[derive(Clone, Copy)]
struct Conflict<'a> {
    /// The forest of the search.
    forest: RootedForest<'a>,
    links: &'a Links,
    search: &'a Search,
    ring: &'a OddRing,
}

impl<'a> Conflict<'a> {
    // Returns the ends of the return edge `dart`.
    fn return_edge(&self, dart: u32) -> ReturnEdge {
        ReturnEdge {
            from: vertex(self.links.tail(dart)),
            to: vertex(self.links.head.get(dart)),
        }
    }

    // Returns the fork (a vertex with two of its edges) of the darts `one` and `other`, which leave the same vertex.
    fn fork(&self, one: u32, other: u32) -> Fork {
        Fork {
            vertex: vertex(self.links.tail(one)),
            one: vertex(self.links.head.get(one)),
            other: vertex(self.links.head.get(other)),
        }
    }

    // Returns the return edge that reaches the lowpoint of `dart`.
    fn lowest(&self, dart: u32) -> ReturnEdge {
        self.return_edge(self.search.lowpt_edge.get(dart))
    }

    // Says whether the fork of the two `darts` of a vertex forces the return edges of `pair` to one side; only a yes is
    // promised. Both must return by the first dart, and end below the lowpoint of the second.
    fn are_alike(&self, pair: Pair, darts: (u32, u32)) -> bool
        ensures { IsTrue result → AreTied self.now.forest.graph.now self.now.forest.parents.now self.now.forest.depths.now false pair.one.from pair.one.to pair.other.from pair.other.to }
    {
        let at = self.fork(darts.0, darts.1);
        let low = self.lowest(darts.1);
        self.forest.are_alike(at, pair, low)
    }

    // Says whether the fork of the two `darts` of a vertex forces the return edges of `pair` to different sides; only a
    // yes is promised. Each must return by its own dart, in this order, and end below the lowpoint of the other dart.
    fn are_opposite(&self, pair: Pair, darts: (u32, u32)) -> bool
        ensures { IsTrue result → AreTied self.now.forest.graph.now self.now.forest.parents.now self.now.forest.depths.now true pair.one.from pair.one.to pair.other.from pair.other.to }
    {
        let at = self.fork(darts.0, darts.1);
        let low = Pair {
            one: self.lowest(darts.0),
            other: self.lowest(darts.1),
        };
        self.forest.are_opposite(at, pair, low)
    }

    // Says whether the forest forces the return edges of `pair`, those of tie number `tie` in its order, to different
    // sides if `turn` is set, else to one. Only a yes is promised.
    fn is_tie(&self, pair: Pair, tie: u32, turn: bool) -> bool
        ensures { IsTrue result → AreTied self.now.forest.graph.now self.now.forest.parents.now self.now.forest.depths.now turn pair.one.from pair.one.to pair.other.from pair.other.to }
    {
        let dart = self.search.ties.dart.get(tie);
        let at = self.links.tail(dart);
        if turn {
            let one = self.search.ties.one.get(tie);
            let first = branch_of(self.links, self.search, one, at);
            self.are_opposite(pair, (first, dart))
        } else {
            let first = self.search.leaving.get(at);
            self.are_alike(pair, (dart, first))
        }
    }

    // Says whether the forest forces two successive return edges of the ring, `edges`, to different sides if `turn` is
    // set, else to one. Only a yes is promised. Their tie has the end `end`: number 2k or 2k + 1 for tie k.
    fn is_step(&self, edges: (ReturnEdge, ReturnEdge), end: u32, turn: bool) -> bool
        ensures { IsTrue result → AreTied self.now.forest.graph.now self.now.forest.parents.now self.now.forest.depths.now turn edges.0.from edges.0.to edges.1.from edges.1.to }
    {
        if end & 1 == 0 {
            let pair = Pair {
                one: edges.1,
                other: edges.0,
            };
            self.is_tie(pair, end >> 1, turn)
        } else {
            let pair = Pair {
                one: edges.0,
                other: edges.1,
            };
            self.is_tie(pair, end >> 1, turn)
        }
    }

    // Follows the ring of ties (pairs forced to one side or to different ones) from its last return edge, `found`, to
    // its first. Returns the first if each tie holds and together they force it opposite to `found`, else None.
    fn start_of_ring(&self, found: ReturnEdge) -> Option<ReturnEdge>
        ensures { IfSome result (λ start. AreTied self.now.forest.graph.now self.now.forest.parents.now self.now.forest.depths.now true found.from found.to start.from start.to) }
    {
        let mut dart = self.ring.other;
        let mut at = found;
        let mut side = false;
        for _ in 0..self.search.ties.count {
            let way = self.ring.way.get(dart);
            if way == NONE {
                break;
            }
            dart = near_edge(&self.search.ties, way);
            let next = self.return_edge(dart);
            let turn = self.search.ties.turn.get(way >> 1) == 1;
            if !self.is_step((at, next), way, turn) {
                return None;
            }
            side = turned(turn, side);
            at = next;
        }
        if side { Some(at) } else { None }
    }

    // Says whether the conflict at `search.failed` and its dart `failed_dart` forces the ends of the ring, the return
    // edges of `pair`, to one side; only a yes is promised. Either one fork does it, or a third return edge
    // (`search.meeting`) is forced opposite to each of them.
    fn are_bound(&self, pair: Pair) -> bool
        ensures { IsTrue result → AreTied self.now.forest.graph.now self.now.forest.parents.now self.now.forest.depths.now false pair.one.from pair.one.to pair.other.from pair.other.to }
    {
        let dart = self.search.failed_dart;
        let at = self.search.failed;
        if self.search.meeting == NONE {
            let first = self.search.leaving.get(at);
            return self.are_alike(pair, (dart, first));
        }
        let one = branch_of(self.links, self.search, self.ring.other, at);
        let other = branch_of(self.links, self.search, self.ring.one, at);
        if one == other {
            return self.are_alike(pair, (one, dart));
        }
        let third = self.return_edge(self.search.meeting);
        if !self.are_opposite(
            Pair {
                one: pair.one,
                other: third,
            },
            (one, dart),
        ) {
            return false;
        }
        self.are_opposite(
            Pair {
                one: pair.other,
                other: third,
            },
            (other, dart),
        )
    }
}

impl LeftRightTest {
    // Says whether the conflict, in the forest that `Forest::read` filled in, shows that `graph` has no map of genus
    // zero. Only a yes is promised: the two ends of the ring are then forced both to one side and to different ones.
    fn is_refuted(&self, graph: &Graph) -> bool
        ensures { IsTrue result → HasNoMap graph.now }
    {
        let n = u32::from(graph.n());
        let parents = self.forest.parents.first(n);
        let depths = self.forest.depths.first(n);
        if !is_forest(graph, parents, depths) {
            return false;
        }
        let forest = RootedForest {
            graph,
            parents,
            depths,
        };
        let conflict = Conflict {
            forest,
            links: &self.links,
            search: &self.search,
            ring: &self.ring,
        };
        let end = conflict.return_edge(self.ring.other);
        match conflict.start_of_ring(end) {
            Some(start) => conflict.are_bound(Pair {
                one: end,
                other: start,
            }),
            None => false,
        }
    }

    /// Says whether the conflict that the search met shows that `graph` has no map of genus zero; only a yes is
    /// promised. It overwrites `self.forest` by the forest of the search.
    pub fn is_shown(&mut self, graph: &Graph) -> bool
        ensures { IsTrue result → HasNoMap graph.now }
    {
        self.forest.read(&self.links, &self.search);
        self.is_refuted(graph)
    }
}
