//! Contracts an edge of a graph: lists the edges that remain and renumbers the vertices.
ghost use Rattle.std.specs.Prelude.{◌≡◌, ◌≤◌, ◌<◌, ◌++◌, ◌∷◌, [], true, map, IfOk, OnOk};
ghost use Rattle.graphs.specs.Graphs.{Edge, edge_of, has_edge};
ghost use Rattle.graphs.specs.Bits.{pairs};
ghost use Rattle.embed_contraction.specs.Contracted.{IsContraction, before_left as number_before, contracted_edge};
ghost use Rattle.embed_witnesses.specs.ContractedEdges.{contracted_among, contraction};

use graphs::Graph;
use map_lists::{Ends, VertexId};
use std::alloc::{AllocError, Global};

/// Returns the graph with the edge `e` contracted: the greater end has left, later numbers have fallen by one, and the
/// lesser end has the neighbours of both. It fails only when out of memory.
pub fn contract(alloc: Global, graph: &Graph, e: Ends) -> Result<Graph, AllocError>
    requires edge { has_edge graph.now e.a.0 e.b.0 ≡ true }
    ensures graph { IfOk result (λ small. small ≡ contraction graph.now e.a.0 e.b.0) }
    ensures meaning { IfOk result (λ small. IsContraction graph.now small e.a.0 e.b.0) }
{
    let n = graph.n() - 1;
    let contracting = Contracting { graph, e };
    let edges = contracting.edges(alloc, n)?;
    Graph::of_edges(alloc, n, &edges)
}

/// A graph, and the edge of it that is contracted.
#[derive(Clone, Copy)]
struct Contracting<'a> {
    graph: &'a Graph,
    e: Ends,
}

impl<'a> Contracting<'a> {
    // Returns the edges of the contracted graph, which has `n` vertices. It fails only when out of memory.
    fn edges(&self, alloc: Global, n: u16) -> Result<Vec<Ends>, AllocError>
        requires { n ≤ 255 }
        ensures { IfOk result (λ edges. map edge_of edges.items ≡ contracted_among self.now.graph.now self.now.e.a.0 self.now.e.b.0 (pairs n)) }
    {
        let mut edges = Vec::new(alloc);
        for u in 0..n {
            for v in u + 1..n {
                self.push_joined(&mut edges, u, v)?;
            }
        }
        Ok(edges)
    }

    // Appends the edge of `u` and `v` to `edges`, if it is one of the contracted graph.
    fn push_joined(&self, edges: &mut Vec<Ends>, u: u16, v: u16) -> Result<(), AllocError>
        requires order { u < v }
        requires few { v < 256 }
        ensures { OnOk result (map edge_of edges.new.items ≡ map edge_of edges.old.items ++ contracted_among self.now.graph.now self.now.e.a.0 self.now.e.b.0 ((u, v) ∷ [])) }
    {
        if self.is_edge(u, v) {
            edges.push(Ends {
                a: VertexId(u),
                b: VertexId(v),
            })?;
        }
        Ok(())
    }

    // Says whether an edge joins `u` and `v` in the contracted graph. Then an edge of `graph` joins their old vertices,
    // or joins them with the greater end of `e` in place of the lesser.
    fn is_edge(&self, u: u16, v: u16) -> bool
        requires first { u < 256 }
        requires second { v < 256 }
        ensures { result ≡ contracted_edge self.now.graph.now self.now.e.a.0 self.now.e.b.0 u v }
    {
        let a = self.e.a.0;
        let b = self.e.b;
        let s = VertexId(before_left(b.0, u));
        let t = VertexId(before_left(b.0, v));
        u != v
            && (self.graph.has(s, t)
                || u == a && self.graph.has(b, t)
                || v == a && self.graph.has(s, b))
    }
}

// Returns the number that vertex `v` of the contracted graph had before the greater end `b` left.
fn before_left(b: u16, v: u16) -> u16
    requires { v < 256 }
    ensures { result ≡ number_before b v }
{
    if v < b { v } else { v + 1 }
}
