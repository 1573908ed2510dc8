//! Answers test rows on bare graphs: graph6 lines, edges, cuts and contracted edges.
ghost use Rattle.std.specs.Prelude.{◌≡◌, ◌<◌, IfSome, true};
ghost use Rattle.graphs.specs.Graphs.{has_edge};

use crate::{searches, witnesses};
use conn_parts::graph_cuts::{graph_components, graph_cut_vertex, graph_separating_pair};
use embed_witnesses::contracted_graphs::contract;
use embed_witnesses::graph_contractions::{contractible_edge, is_three_connected};
use graph6_text::{after_graph_header, read_line, write_line};
use graphs::Graph;
use map_lists::{Ends, VertexId};
use row_texts::bytes::{lines_of, put_bytes};
use row_texts::fault_texts::{put_pair, put_vertex, tell_line_fault, tell_no_memory};
use row_texts::reply::Reply;
use row_texts::row_arguments::pair;
use row_texts::rows::Row;
use std::alloc::{AllocError, Global};

// Writes the graph6 line of `graph`.
fn put_line(graph: &Graph, out: &mut Reply) {
    let mut bytes = Vec::new(out.alloc);
    let _ = write_line(graph, &mut bytes);
    put_bytes(&bytes, out);
}

// Writes the graph6 line of `graph`, or that memory ran out.
fn put_graph(graph: Result<Graph, AllocError>, out: &mut Reply) {
    match graph {
        Ok(graph) => put_line(&graph, out),
        Err(_) => tell_no_memory(out),
    }
}

/// Returns the edge of `graph` between the two vertices that `text` names, the lesser first. None where it is no edge.
pub fn edge_of(graph: &Graph, text: &str) -> Option<Ends>
    ensures { IfSome result (λ e. has_edge graph.now e.a.0 e.b.0 ≡ true) }
{
    let (u, v) = pair(text);
    let (a, b) = (VertexId(u), VertexId(v));
    if u < v && graph.has(a, b) {
        Some(Ends { a, b })
    } else {
        None
    }
}

// Writes the least edge that can be contracted, if the graph is three-connected and has five vertices.
fn put_contractible(graph: &Graph, out: &mut Reply) -> Result<(), AllocError>
    requires { 0 < graph.now.n }
{
    if is_three_connected(out.alloc, graph)? && graph.n() >= 5 {
        let e = contractible_edge(out.alloc, graph)?;
        out.put_numbers(&[e.a.0, e.b.0]);
    }
    Ok(())
}

// Returns the graph of four vertices with the edges of a cycle.
fn cycle(alloc: Global) -> Result<Graph, AllocError> {
    let (zero, one, two, three) = (VertexId(0), VertexId(1), VertexId(2), VertexId(3));
    let edges = [
        Ends { a: zero, b: one },
        Ends { a: zero, b: three },
        Ends { a: one, b: two },
        Ends { a: two, b: three },
    ];
    Graph::of_edges(alloc, 4, &edges)
}

// Returns the graph of four vertices with two edges at vertex 3.
fn two_edges(alloc: Global) -> Result<Graph, AllocError> {
    let (zero, one, three) = (VertexId(0), VertexId(1), VertexId(3));
    let edges = [Ends { a: zero, b: three }, Ends { a: one, b: three }];
    Graph::of_edges(alloc, 4, &edges)
}

// Answers a row on a graph that has a vertex. Where nothing else is asked, its components, the least cut vertex and the
// least separating pair are written.
fn of_some(call: &str, graph: &Graph, out: &mut Reply)
    requires { 0 < graph.now.n }
{
    match call {
        "three-connected" => match is_three_connected(out.alloc, graph) {
            Ok(three) => out.put_flag(three),
            Err(_) => tell_no_memory(out),
        },
        "contractible" => {
            let _ = put_contractible(graph, out);
        }
        _ => {
            match graph_components(out.alloc, graph) {
                Ok(parts) => out.put_number(u64::from(parts.count())),
                Err(_) => tell_no_memory(out),
            }
            out.put(" components, ");
            put_vertex(graph_cut_vertex(out.alloc, graph), out);
            out.put(", ");
            put_pair(graph_separating_pair(out.alloc, graph), out);
        }
    }
}

// Answers a row on `graph`.
fn of_graph(row: &Row<'_>, graph: &Graph, out: &mut Reply) {
    match row.call {
        "line" => put_line(graph, out),
        "has" => {
            let (u, v) = pair(row.arg(1));
            out.put_flag(graph.has(VertexId(u), VertexId(v)));
        }
        "contracted" => {
            if let Some(e) = edge_of(graph, row.arg(1)) {
                put_graph(contract(out.alloc, graph, e), out);
            }
        }
        _ if 0 < graph.n() => of_some(row.call, graph, out),
        _ => {}
    }
}

/// Answers a row on the graph of a line, or tells why the line is none.
pub fn over_line(row: &Row<'_>, out: &mut Reply) {
    match read_line(out.alloc, row.arg(0).as_bytes()) {
        Ok(graph) => match row.family {
            "graph" => of_graph(row, &graph, out),
            "witness" => witnesses::answer(row, &graph, out),
            _ => searches::of_graph(row.call, &graph, out),
        },
        Err(fault) => tell_line_fault(fault, out),
    }
}

/// Answers a row on graphs.
pub fn answer(row: &Row<'_>, out: &mut Reply) {
    match row.call {
        "header" => {
            let text = lines_of(out.alloc, row.arg(0));
            out.put_number(after_graph_header(&text) as u64);
        }
        "cycle" => put_graph(cycle(out.alloc), out),
        "two edges" => put_graph(two_edges(out.alloc), out),
        _ => over_line(row, out),
    }
}
