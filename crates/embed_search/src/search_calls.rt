//! Calls of the fast searches: rotation lists by the left-right test, Kuratowski witnesses traced from its conflicts.
ghost use Rattle.std.specs.Prelude.{◌≡◌, ◌<◌, length, IfOk, IfSome, OnOk, MatchOption};
ghost use Rattle.map_lists.specs.Lists.{Lists};
ghost use Rattle.embed_theorem.specs.Expanded.{IsMapOf};

use crate::conflict_marks::ConflictMarks;
use crate::kernel::Kernel;
use crate::shrink::shrink;
use crate::witness_tracing::Tracer;
use graphs::Graph;
use kuratowski::Witness;
use left_right_test::{Edges, LeftRightTest};
use map_lists::Rotations;
use std::alloc::{AllocError, Global};
use std::mem;

// The tables of the left-right test, and the edges that it reads.
#[derive(Clone, Copy)]
struct TestTables {
    edges: Edges,
    test: LeftRightTest,
}

// The tables by which a witness is found.
#[derive(Clone, Copy)]
struct WitnessTables {
    marks: ConflictMarks,
    kernel: Kernel,
    tracer: Tracer,
}

static FRESH_TEST: [TestTables; 1] = [TestTables {
    edges: Edges::FRESH,
    test: LeftRightTest::FRESH,
}];

static FRESH_WITNESS: [WitnessTables; 1] = [WitnessTables {
    marks: ConflictMarks::FRESH,
    kernel: Kernel::FRESH,
    tracer: Tracer::FRESH,
}];

// Makes `tables` those of `fresh` if it is empty. It takes nothing of the stack for them, and fails only when out of
// memory.
fn fill_once<T: Copy>(alloc: Global, tables: &mut Vec<T>, fresh: &[T; 1]) -> Result<(), AllocError>
    ensures { OnOk result (0 < length tables.new.items) }
{
    if !tables.is_empty() {
        return Ok(());
    }
    let mut made = Vec::with_capacity(alloc, 1)?;
    made.extend_from_slice(fresh)?;
    *tables = made;
    Ok(())
}

impl TestTables {
    // Loads `graph` into the left-right test.
    fn begin(&mut self, graph: &Graph) {
        self.test.begin(&mut self.edges, graph);
    }
}

impl WitnessTables {
    // Replaces the links of the test, which has met a conflict, by those of the edges of a subdivision of K5 or K3,3.
    // That it is one is not checked.
    fn shrink(&mut self, tables: &mut TestTables) {
        self.marks.mark_conflict(&tables.test);
        self.kernel
            .load(&mut tables.edges, &tables.test.links, &self.marks.marks);
        self.kernel.keep_marked(&mut tables.test.links);
        shrink(&mut self.kernel, &mut tables.test, &mut self.marks);
        self.kernel
            .link_paths(&mut tables.test.links, &tables.edges);
    }

    // Replaces the links of the test by those of the edges of a witness that its graph is nonplanar, not checked, and
    // returns true. Returns false where it passes the test.
    fn leaves_witness(&mut self, tables: &mut TestTables) -> bool {
        if tables.edges.are_of_k5() {
            for edge in 0..tables.edges.count {
                tables.edges.take_ends(&tables.test.links, edge);
            }
            tables.test.links.put_all(&tables.edges);
            return true;
        }
        if !tables.test.has_failed() && tables.test.passes_all() {
            return false;
        }
        self.shrink(tables);
        true
    }
}

// Returns lists of no vertices: `spent` in their memory, or new ones.
fn taken(alloc: Global, spent: &mut Option<Rotations>) -> Rotations {
    match mem::replace(spent, None) {
        Some(lists) => lists,
        None => Rotations::new(alloc),
    }
}

/// The tables of the searches, for one graph after another. Each part is made for the first graph that wants it.
#[derive(Drop)]
pub struct Tables {
    // none or one
    tests: Vec<TestTables>,
    // none or one
    searches: Vec<WitnessTables>,
    // lists whose memory the next ones use
    spent: Option<Rotations>,
    // a witness whose memory the next one uses
    spent_witness: Option<Witness>,
}

impl Tables {
    /// Returns tables before the first graph. They take no memory yet.
    pub fn new(alloc: Global) -> Tables {
        Tables {
            tests: Vec::new(alloc),
            searches: Vec::new(alloc),
            spent: None,
            spent_witness: None,
        }
    }

    /// Returns rotation lists for `graph`, or None where it has no map of genus zero. Lists are not checked: a graph
    /// without a map may have some too, though no such graph is known. It fails only when out of memory.
    pub fn planar_lists(
        &mut self,
        alloc: Global,
        graph: &Graph,
    ) -> Result<Option<Rotations>, AllocError>
        ensures { IfOk result (λ found. MatchOption found ((lists : Lists) → ¬ IsMapOf lists graph.now) (λ lists. length lists ≡ graph.now.n)) }
    {
        fill_once(alloc, &mut self.tests, &FRESH_TEST)?;
        let tables = &mut self.tests[0];
        tables.begin(graph);
        if tables.test.refuses(graph) {
            return Ok(None);
        }
        let spent = taken(alloc, &mut self.spent);
        let lists = tables.test.lists(spent, graph.n())?;
        Ok(Some(lists))
    }

    /// Returns rotation lists for `graph` if the test passes it, or None. Neither is checked: lists may be those of no
    /// map, and a graph without any may have a map, though no such graph is known. It fails only when out of memory.
    pub fn found_lists(
        &mut self,
        alloc: Global,
        graph: &Graph,
    ) -> Result<Option<Rotations>, AllocError>
        ensures { IfOk result (λ found. IfSome found (λ lists. length lists ≡ graph.now.n)) }
    {
        fill_once(alloc, &mut self.tests, &FRESH_TEST)?;
        let tables = &mut self.tests[0];
        tables.begin(graph);
        if tables.edges.are_of_k5() || !tables.test.passes_all() {
            return Ok(None);
        }
        let spent = taken(alloc, &mut self.spent);
        let lists = tables.test.lists(spent, graph.n())?;
        Ok(Some(lists))
    }

    /// Keeps the memory of `lists`, which are no longer needed, for those of the next graph.
    pub fn keep_lists(&mut self, lists: Rotations) {
        self.spent = Some(lists);
    }

    /// Keeps the memory of `witness`, which is no longer needed, for the next one.
    pub fn keep_witness(&mut self, witness: Witness) {
        self.spent_witness = Some(witness);
    }

    /// Returns a witness that the graph of the last call is nonplanar, or None where the search finds none. It is not
    /// checked. It fails only when out of memory.
    pub fn witness(&mut self, alloc: Global) -> Result<Option<Witness>, AllocError> {
        fill_once(alloc, &mut self.tests, &FRESH_TEST)?;
        fill_once(alloc, &mut self.searches, &FRESH_WITNESS)?;
        let tables = &mut self.tests[0];
        let search = &mut self.searches[0];
        if !search.leaves_witness(tables) {
            return Ok(None);
        }
        search
            .tracer
            .traced(alloc, &tables.test.links, &mut self.spent_witness)
    }
}

/// Returns rotation lists for `graph`, or None where it has no map of genus zero. Lists are not checked: a graph
/// without a map may have some too, though no such graph is known. It fails only when out of memory.
pub fn planar_lists(alloc: Global, graph: &Graph) -> Result<Option<Rotations>, AllocError>
    ensures { IfOk result (λ found. MatchOption found ((lists : Lists) → ¬ IsMapOf lists graph.now) (λ lists. length lists ≡ graph.now.n)) }
{
    Tables::new(alloc).planar_lists(alloc, graph)
}

/// Returns a witness, not checked, that `graph` is nonplanar, or None if none is found. Fails only when out of memory.
pub fn find_witness(alloc: Global, graph: &Graph) -> Result<Option<Witness>, AllocError> {
    let mut tables = Tables::new(alloc);
    match tables.found_lists(alloc, graph)? {
        Some(_) => Ok(None),
        None => tables.witness(alloc),
    }
}
