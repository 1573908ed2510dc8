//! Promised contracts of records of planar_code and lines of graph6, read and written.
ghost use Rattle.std.specs.Prelude.{◌≡◌, ◌<◌, ◌≤◌, length, MatchResult, ◌+◌, ◌++◌, OnOk, OnErr, ◌-◌, IfOk, IfErr, List, ℕ, ◌/◌, map};
ghost use Rattle.graph6_text.specs.Faults.{NamesFault};
ghost use Rattle.graphs.specs.Graphs.{AreEdges, edge_of, IsGraph, has_edge};
ghost use Rattle.graph6_text.specs.Lines.{IsLine};
ghost use Rattle.planar_code.specs.Reading.{header_of, IsRecord};
ghost use Rattle.planar_code.specs.Scan.{most_lists};
ghost use Rattle.planar_code.specs.Step.{StandsAt, FailsAt};
ghost use Rattle.planar_code.specs.Whole.{IsCut};
ghost use Rattle.planar_code.specs.Write.{entry_limit, record_bytes, is_wide, AreBelow};

use graph6_text::G6Fault;
use graphs::Graph;
use map_lists::{Ends, Rotations, VertexId};
use planar_code::{CodeFault, Cut, Step};
use std::alloc::{AllocError, Global};

/// Returns how many of the first of `bytes` are a header: all of it, or none.
pub fn after_header(bytes: &[u8]) -> usize
    ensures { result ≡ length (header_of bytes.now) }
{
    planar_code::after_header(bytes)
}

/// Reads what stands at offset `at` of `bytes`: a record, the end, or a fault with its offset.
pub fn next_record(alloc: Global, bytes: &[u8], at: usize) -> Result<Step, CodeFault>
    requires { at ≤ length bytes.now }
    ensures { MatchResult result (StandsAt bytes.now at) (FailsAt bytes.now at) }
{
    planar_code::next_record(alloc, bytes, at)
}

/// Returns where `bytes` may be cut: the greatest offset up to which they are a header or none and whole records.
pub fn last_cut(alloc: Global, bytes: &[u8]) -> Result<Cut, AllocError>
    ensures { IfOk result (λ cut. IsCut bytes.now cut.end cut.records) }
{
    planar_code::last_cut(alloc, bytes)
}

/// Appends the record of `lists` to `out`, which is then a record of exactly these lists.
pub fn write_record(lists: &Rotations, out: &mut Vec<u8>) -> Result<(), AllocError>
    requires some { 0 < length lists.now }
    requires few { length lists.now ≤ most_lists }
    requires below { AreBelow (entry_limit (is_wide lists.now)) lists.now }
    ensures written { OnOk result (out.new.items ≡ out.old.items ++ record_bytes lists.now) }
    ensures reads { IsRecord (record_bytes lists.now) lists.now }
    ensures err { OnErr result (out.new.items ≡ out.old.items) }
{
    planar_code::write_record(lists, out)
}

/// Reads `line` as a graph, or names the first rule that it breaks.
pub fn read_line(alloc: Global, line: &[u8]) -> Result<Graph, G6Fault>
    ensures ok { IfOk result (IsLine line.now) }
    ensures fault { IfErr result (NamesFault line.now) }
{
    graph6_text::read_line(alloc, line)
}

/// Reads `line` as a graph, or names the first rule that it breaks, in the memory of `spent`.
pub fn read_line_into(spent: Graph, line: &[u8]) -> Result<Graph, G6Fault>
    ensures ok { IfOk result (IsLine line.now) }
    ensures fault { IfErr result (NamesFault line.now) }
{
    graph6_text::read_line_into(spent, line)
}

/// Appends the line of `graph` to `out`.
pub fn write_line(graph: &Graph, out: &mut Vec<u8>) -> Result<(), AllocError>
    ensures ok { IfOk result (λ _. (line : List ℕ) × (out.new.items ≡ out.old.items ++ line) × IsLine line graph.now) }
    ensures err { OnErr result (out.new.items ≡ out.old.items) }
{
    graph6_text::write_line(graph, out)
}

/// Makes the graph on `n` vertices with exactly these `edges`.
pub fn graph_of_edges(alloc: Global, n: u16, edges: &[Ends]) -> Result<Graph, AllocError>
    requires few { n ≤ 255 }
    requires edges { AreEdges n (map edge_of edges.now) }
    ensures { IfOk result (λ g. g ≡ record { n = n; edges = map edge_of edges.now }) }
{
    Graph::of_edges(alloc, n, edges)
}

/// Returns the number of vertices of `graph`.
pub fn graph_size(graph: &Graph) -> u16
    ensures count { result ≡ graph.now.n }
    ensures known { IsGraph graph.now }
{
    graph.n()
}

/// Tells whether an edge of `graph` joins `u` and `v`.
pub fn are_adjacent(graph: &Graph, u: VertexId, v: VertexId) -> bool
    ensures { result ≡ has_edge graph.now u.0 v.0 }
{
    graph.has(u, v)
}
