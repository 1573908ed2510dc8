//! Compares the edges of a map with those of a graph, as graph6 bits.
ghost use Rattle.std.specs.Prelude.{◌≡◌, ◌<◌, ◌≤◌, ◌∷◌, ◌/◌, ◌≢◌, ◌==◌, ◌||◌, ℕ, false, [], length, replicate, All, AllPairs, Contains, IfOk, IsTrue};
ghost use Rattle.map_theory.specs.Maps.{IsSimpleMap};
ghost use Rattle.graphs.specs.Bits.{pair_place as place_of_pair, body_length as bytes_of_pairs, is_set as is_place_set, IsLineByte};
ghost use Rattle.embed_theorem.specs.Expanded.{HasJustEdges};
ghost use Rattle.embed_graph.specs.Marks.{AreBytes, Adds, Marks};

use graphs::Graph;
use graphs::bits::{body_length, pair_place};
use map_lists::Rotations;
use std::alloc::{AllocError, Global};
use std::mem;

// Sets in `body`, the graph6 bytes of `n` vertices, the unset bit of the edge from `u` to `v`, if `u` is the lesser.
fn set_pair(body: &mut [u8], n: u16, u: u16, v: u16)
    requires vertex { v < n }
    requires bytes { AreBytes n body.old }
    requires unset { u < v → is_place_set body.old (place_of_pair u v) ≡ false }
    ensures bytes { AreBytes n body.new }
    ensures adds { Adds v (u ∷ []) body.old body.new }
{
    if u < v {
        let place = pair_place(u, v);
        body[place / 6] += 32u8 >> (place % 6);
    }
}

// Sets in `body` the bits, unset before, of the edges from `v` to the lesser vertices of `list`, each there once.
fn set_list(body: &mut [u8], n: u16, v: u16, list: &[u16])
    requires vertex { v < n }
    requires bytes { AreBytes n body.old }
    requires once { AllPairs ◌≢◌ list.now }
    requires unset { (u : ℕ) → u < v → is_place_set body.old (place_of_pair u v) ≡ false }
    ensures bytes { AreBytes n body.new }
    ensures adds { Adds v list.now body.old body.new }
{
    for u in list {
        set_pair(body, n, *u, v);
    }
}

// Sets in `body`, in which no bit is set, the bits of all edges of a simple map of `n` vertices, given by its `lists`.
fn set_lists(body: &mut [u8], n: u16, lists: &Rotations)
    requires simple { IsSimpleMap lists.now }
    requires vertices { length lists.now ≡ n }
    requires empty { body.old ≡ replicate (bytes_of_pairs n) 63 }
    ensures { Marks lists.now n body.new }
{
    for v in 0..n {
        set_list(body, n, v, lists.list(usize::from(v)));
    }
}

// Returns the edges of a simple map of `n` vertices, at most 255, as graph6 bytes, in the memory of `spent`.
fn bits_of_lists(spent: Vec<u8>, lists: &Rotations, n: u16) -> Result<Vec<u8>, AllocError>
    requires simple { IsSimpleMap lists.now }
    requires few { n ≤ 255 }
    requires vertices { length lists.now ≡ n }
    ensures { IfOk result (λ body. Marks lists.now n body.items) }
{
    let mut body = spent;
    body.clear();
    body.resize(body_length(n), 63)?;
    set_lists(&mut body, n, lists);
    Ok(body)
}

/// Compares the edges of maps with those of graphs, one after another, and keeps its memory for the next.
#[derive(Drop)]
pub struct EdgeTest {
    alloc: Global,
    bits: Vec<u8>,
}

impl EdgeTest {
    /// Returns a test that has compared nothing yet. It takes no memory.
    pub fn new(alloc: Global) -> EdgeTest {
        EdgeTest {
            alloc,
            bits: Vec::new(alloc),
        }
    }

    /// Says whether a simple map, given as `lists`, has just the edges of `graph`, on as many vertices; only a yes is
    /// promised. It fails only when out of memory.
    pub fn has_edges(&mut self, graph: &Graph, lists: &Rotations) -> Result<bool, AllocError>
        requires simple { IsSimpleMap lists.now }
        requires vertices { length lists.now ≡ graph.now.n }
        ensures { IfOk result (λ yes. IsTrue yes → HasJustEdges lists.now graph.now) }
    {
        let bits = graph.body();
        let spent = mem::replace(&mut self.bits, Vec::new(self.alloc));
        let edges = bits_of_lists(spent, lists, graph.n())?;
        let same = edges.as_slice() == bits;
        self.bits = edges;
        Ok(same)
    }
}
