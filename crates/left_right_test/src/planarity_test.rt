//! The whole left-right planarity test, for one graph after another: reads, searches, refuses or gives rotation lists.
ghost use Rattle.std.specs.Prelude.{◌≡◌, ◌<◌, length, IfOk, IsTrue};
ghost use Rattle.left_right_check.specs.Ties.{HasNoMap};

use crate::bitwise_orientation::Few;
use crate::conflict_pairs::agrees;
use crate::conflict_proof::Forest;
use crate::conflict_ring::OddRing;
use crate::dart_lists::Links;
use crate::embedding::Places;
use crate::fixed_tables::NONE;
use crate::graph_edges::Edges;
use crate::orientation::orient_all;
use crate::search_tables::Search;
use graphs::Graph;
use left_right_check::is_k5;
use map_lists::Rotations;
use std::alloc::AllocError;

/// The tables of the left-right planarity test, which serve one graph after another.
#[derive(Clone, Copy)]
pub struct LeftRightTest {
    /// The edges of which it asks whether they are planar.
    pub links: Links,
    /// The tables of its searches.
    pub search: Search,
    /// The ring of ties that shows its conflict, if it met one.
    pub ring: OddRing,
    places: Places,
    few: Few,
    // whether the graph was read as bits
    is_few: bool,
    pub(crate) forest: Forest,
}

impl LeftRightTest {
    /// The tables before the first graph, each number 0: where a static has them, memory is made of it with no copy.
    pub const FRESH: LeftRightTest = LeftRightTest {
        links: Links::FRESH,
        search: Search::FRESH,
        ring: OddRing::FRESH,
        places: Places::FRESH,
        few: Few::FRESH,
        is_few: false,
        forest: Forest::FRESH,
    };

    /// Reads `graph` into the tables and into `edges`, and forgets the conflict of an earlier graph.
    pub fn begin(&mut self, edges: &mut Edges, graph: &Graph) {
        self.is_few = edges.read_few(graph, &mut self.links, &mut self.few);
        if !self.is_few {
            edges.read(graph, &mut self.links);
        }
        self.search.failed = NONE;
    }

    /// Says whether the test has met a conflict since `begin`.
    pub fn has_failed(&self) -> bool {
        self.search.failed != NONE
    }

    /// Says whether the edges that `begin` read pass the test, by a search from vertex 0 on; no answer is promised. If
    /// not, `search` and `ring` hold the conflict.
    pub fn passes_all(&mut self) -> bool {
        self.search.root = 0;
        if self.is_few {
            self.few.orient_all(&self.links, &mut self.search);
        } else {
            orient_all(&self.links, &mut self.search);
        }
        self.agrees()
    }

    /// Says whether the edges in `links` pass the test, searching from `search.root`, with answers like `passes_all`.
    pub fn passes(&mut self) -> bool {
        orient_all(&self.links, &mut self.search);
        self.agrees()
    }

    // Says whether the oriented edges can be put on two sides. If not, it finds the ring that shows the conflict.
    fn agrees(&mut self) -> bool {
        if agrees(&self.links, &mut self.search) {
            return true;
        }
        self.ring.find(&self.links, &self.search);
        false
    }

    /// Says whether the test shows that `graph`, which was read by `begin`, is not planar; only a yes is promised.
    /// After a no, `lists` returns lists, which may be those of no map.
    pub fn refuses(&mut self, graph: &Graph) -> bool
        ensures { IsTrue result → HasNoMap graph.now }
    {
        if is_k5(graph) {
            return true;
        }
        !self.passes_all() && self.is_shown(graph)
    }

    /// Returns `n` rotation lists of the edges that the test passed, in the memory of `spent`; they may be those of no
    /// map. It fails only when out of memory.
    pub fn lists(&mut self, spent: Rotations, n: u16) -> Result<Rotations, AllocError>
        requires { n < 4096 }
        ensures { IfOk result (λ lists. length lists ≡ n) }
    {
        self.places.write_all_lists(&self.links, &mut self.search);
        self.places.lists(spent, n)
    }
}
