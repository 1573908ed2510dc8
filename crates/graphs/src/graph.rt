//! Bare graphs as the type `Graph`, kept as graph6 bits, with adjacency lookups.
ghost use Rattle.std.specs.Prelude.{◌≡◌, ◌≤◌, ◌<◌, ◌/◌, ◌==◌, ◌||◌, ℕ, false, [], map, length, All, AllPairs, IfOk, replicate};
ghost use Rattle.std.specs.List.{list_any};
ghost use Rattle.graphs.specs.Graphs.{EdgeGraph, IsGraph, AreEdges, has_edge, edge_of};
ghost use Rattle.graphs.specs.Bits.{IsBody, IsLineByte, edges_of, pair_place as place_of_pair, body_length as bytes_of_pairs, is_set as is_place_set};

use crate::bits::{body_length, is_set, pair_place, set};
use map_lists::{Ends, VertexId};
use std::alloc::{AllocError, Global};
use std::marker::Model;

/// A simple graph with at most 255 vertices, numbered from 0. Contracts see it as their number and the list
/// of its edges, each by its lesser end and then its greater, in order.
#[derive(Drop)]
pub struct Graph {
    // the number of vertices
    vertices: u16,
    // the bytes of its line after the number of vertices
    body: Vec<u8>,
}

impl Model for Graph {
    ghost use Rattle.graphs.specs.Graphs.{EdgeGraph};
    ghost use Rattle.graphs.specs.Bits.{IsBody, edges_of};
    ghost use Rattle.std.specs.Prelude.{◌≤◌};

    ghost Value = { EdgeGraph };

    ghost view = { λ g. record { n = g.vertices; edges = edges_of g.vertices g.body.items } };

    ghost invariant = { λ g. (g.vertices ≤ 255) × IsBody g.vertices g.body.items };
}

impl Graph {
    /// Returns the graph without vertices. It takes no memory.
    pub fn new(alloc: Global) -> Graph
        ensures { result ≡ record { n = 0; edges = [] } }
    {
        Graph {
            vertices: 0,
            body: Vec::new(alloc),
        }
    }

    /// Returns the graph on `n` vertices with these `edges`. `n` is at most 255, the ends are below it, and the edges
    /// are in order and each once.
    pub fn of_edges(alloc: Global, n: u16, edges: &[Ends]) -> Result<Graph, AllocError>
        requires few { n ≤ 255 }
        requires edges { AreEdges n (map edge_of edges.now) }
        ensures { IfOk result (λ g. g ≡ record { n = n; edges = map edge_of edges.now }) }
    {
        let mut body = vec![in alloc; 63u8; body_length(n)]?;
        set_all(&mut body, n, edges);
        Ok(Graph { vertices: n, body })
    }

    /// Returns the graph on `n` vertices, at most 255, with the bits `bytes`, six a byte plus 63, in `spent`'s memory.
    pub fn of_body(spent: Graph, n: u16, bytes: &[u8]) -> Result<Graph, AllocError>
        requires few { n ≤ 255 }
        requires bits { IsBody n bytes.now }
        ensures { IfOk result (λ g. g ≡ record { n = n; edges = edges_of n bytes.now }) }
    {
        let mut body = spent.body;
        body.clear();
        body.extend_from_slice(bytes)?;
        Ok(Graph { vertices: n, body })
    }

    /// Returns the number of vertices.
    pub fn n(&self) -> u16
        ensures count { result ≡ self.now.n }
        ensures known { IsGraph self.now }
    {
        self.vertices
    }

    /// Says whether an edge joins `u` and `v`. False where one of them is no vertex.
    pub fn has(&self, u: VertexId, v: VertexId) -> bool
        ensures { result ≡ has_edge self.now u.0 v.0 }
    {
        if u.0 < v.0 {
            self.has_pair(u.0, v.0)
        } else {
            self.has_pair(v.0, u.0)
        }
    }

    // Says whether `u` is less than `v`, both are vertices, and an edge joins them.
    fn has_pair(&self, u: u16, v: u16) -> bool
        requires { u ≤ v }
        ensures { result ≡ has_edge self.now u v }
    {
        u < v && v < self.vertices && self.has_bit(u, v)
    }

    // Says whether an edge joins `u` and `v`, which are vertices, `u` the lesser.
    fn has_bit(&self, u: u16, v: u16) -> bool
        requires order { u < v }
        requires vertex { v < self.now.n }
        ensures { result ≡ has_edge self.now u v }
    {
        is_set(&self.body, pair_place(u, v))
    }

    /// Returns the bytes of its line after the number of vertices: its bits, six a byte.
    pub fn body(&self) -> &[u8]
        ensures few { self.now.n ≤ 255 }
        ensures bits { IsBody self.now.n result.now }
        ensures edges { self.now.edges ≡ edges_of self.now.n result.now }
    {
        &self.body
    }
}

// Sets in `body`, which has no bit set, the bits of `edges` on `n` vertices. They are in order, and each stands once.
fn set_all(body: &mut [u8], n: u16, edges: &[Ends])
    requires few { n ≤ 255 }
    requires edges { AreEdges n (map edge_of edges.now) }
    requires empty { body.old ≡ replicate (bytes_of_pairs n) 63 }
    ensures bits { IsBody n body.new }
    ensures edges { edges_of n body.new ≡ map edge_of edges.now }
{
    for edge in edges {
        set(body, pair_place(edge.a.0, edge.b.0));
    }
}
