//! The call for C that embeds many graphs, one behind another in the arrays, each as `pigale_embed` does.
ghost use Rattle.std.specs.Prelude.{◌≡◌, ◌≤◌, ◌<◌, ◌+◌, ◌*◌, ◌↔◌, suc, length, slice_range, IsTrue};
ghost use Rattle.pigale_c.specs.Embedded.{IsEmbedded};
ghost use Rattle.pigale_c.specs.ManyGraphs.{AreEmbeddedMany, AreEmbeddedTo, AreGivenGraphs, HaveGraphs, end_of_graph, entry_of_graph, rows_in};
ghost use Rattle.pigale_c.specs.ManyMaps.{IsChangedWithin, begin_of, part_of};
ghost use Rattle.pigale_c.specs.Numbers.{outcome_of};

use crate::edges::{EdgeEnds, GraphArrays};
use crate::embeds::put_figure;
use crate::many_maps::{Part, part_at};
use crate::map_arrays::are_cuts;
use crate::outcome::{Failure, Numbers, Outcome, report};
use embed_graph::embed_figures::Embedder;
use std::alloc::Global;

// The arrays of graphs, as they are given: where the vertices and the edges of each end, and the edges. `points`, `room`
// and `entries` are the lengths of the rows for their points, their ends and their neighbours.
#[derive(Clone, Copy)]
struct ManyGraphs<'a> {
    alloc: Global,
    vertex_ends: &'a [usize],
    edge_ends: &'a [usize],
    edges: &'a [EdgeEnds],
    points: usize,
    room: usize,
    entries: usize,
}

// Where the points, the ends and the neighbours of a graph begin and end.
#[derive(Clone, Copy)]
struct GraphParts {
    points: Part,
    ends: Part,
    neighbours: Part,
}

// Says whether `total` is the sum of `vertices` and ten times `count`.
fn is_room_for_ends(total: usize, vertices: usize, count: usize) -> bool
    ensures { IsTrue result ↔ (total ≡ vertices + 10 * count) }
{
    if total < vertices {
        return false;
    }
    let rest = total - vertices;
    rest / 10 == count && rest % 10 == 0
}

// Says whether `total` is two times `count`.
fn is_twice(total: usize, count: usize) -> bool
    ensures { IsTrue result ↔ (total ≡ 2 * count) }
{
    total / 2 == count && total % 2 == 0
}

// Returns the edges of `edges` from number `start` to `end`.
fn edges_between(edges: &[EdgeEnds], start: usize, end: usize) -> &[EdgeEnds]
    requires order { start ≤ end }
    requires within { end ≤ length edges.now }
    ensures { result.now ≡ slice_range edges.now start end }
{
    &edges[start..end]
}

impl ManyGraphs<'_> {
    // Says whether the graphs cut up all vertices and all edges, and the rows have the lengths that they ask for.
    fn are_given(&self) -> bool
        ensures { IsTrue result ↔ AreGivenGraphs self.now.vertex_ends.now self.now.edge_ends.now self.now.edges.now self.now.points self.now.room self.now.entries }
    {
        self.edge_ends.len() == self.vertex_ends.len()
            && are_cuts(self.vertex_ends, self.points)
            && are_cuts(self.edge_ends, self.edges.len())
            && is_room_for_ends(self.room, self.points, self.vertex_ends.len())
            && is_twice(self.entries, self.edges.len())
    }

    // Returns where the points of graph `i` begin and end.
    fn points_of(&self, i: usize) -> Part
        requires given { AreGivenGraphs self.now.vertex_ends.now self.now.edge_ends.now self.now.edges.now self.now.points self.now.room self.now.entries }
        requires inside { i < length self.now.vertex_ends.now }
        ensures from { result.from ≡ begin_of self.now.vertex_ends.now i }
        ensures to { result.to ≡ begin_of self.now.vertex_ends.now (suc i) }
        ensures order { result.from ≤ result.to }
        ensures within { result.to ≤ self.now.points }
    {
        part_at(self.vertex_ends, i)
    }

    // Returns where the ends of graph `i` begin and end.
    fn ends_of(&self, i: usize) -> Part
        requires given { AreGivenGraphs self.now.vertex_ends.now self.now.edge_ends.now self.now.edges.now self.now.points self.now.room self.now.entries }
        requires inside { i < length self.now.vertex_ends.now }
        ensures from { result.from ≡ end_of_graph self.now.vertex_ends.now i }
        ensures to { result.to ≡ end_of_graph self.now.vertex_ends.now (suc i) }
        ensures order { result.from ≤ result.to }
        ensures within { result.to ≤ self.now.room }
    {
        let points = self.points_of(i);
        Part {
            from: points.from + 10 * i,
            to: points.to + 10 * (i + 1),
        }
    }

    // Returns where the edges of graph `i` begin and end.
    fn edges_of(&self, i: usize) -> Part
        requires given { AreGivenGraphs self.now.vertex_ends.now self.now.edge_ends.now self.now.edges.now self.now.points self.now.room self.now.entries }
        requires inside { i < length self.now.vertex_ends.now }
        ensures from { result.from ≡ begin_of self.now.edge_ends.now i }
        ensures to { result.to ≡ begin_of self.now.edge_ends.now (suc i) }
        ensures order { result.from ≤ result.to }
        ensures within { result.to ≤ length self.now.edges.now }
    {
        part_at(self.edge_ends, i)
    }

    // Returns where the neighbours of graph `i` begin and end.
    fn neighbours_of(&self, i: usize) -> Part
        requires given { AreGivenGraphs self.now.vertex_ends.now self.now.edge_ends.now self.now.edges.now self.now.points self.now.room self.now.entries }
        requires inside { i < length self.now.vertex_ends.now }
        ensures from { result.from ≡ entry_of_graph self.now.edge_ends.now i }
        ensures to { result.to ≡ entry_of_graph self.now.edge_ends.now (suc i) }
        ensures order { result.from ≤ result.to }
        ensures within { result.to ≤ self.now.entries }
    {
        let edges = self.edges_of(i);
        Part {
            from: 2 * edges.from,
            to: 2 * edges.to,
        }
    }

    // Returns the edges of graph `i`.
    fn own_edges(&self, i: usize) -> &[EdgeEnds]
        requires given { AreGivenGraphs self.now.vertex_ends.now self.now.edge_ends.now self.now.edges.now self.now.points self.now.room self.now.entries }
        requires inside { i < length self.now.vertex_ends.now }
        ensures { result.now ≡ part_of self.now.edge_ends.now self.now.edges.now i }
    {
        let part = self.edges_of(i);
        edges_between(self.edges, part.from, part.to)
    }
}

// Embeds the graph of `n` vertices and `edges`, of which `parts` has the places in the rows. Returns what `put_figure`
// does, or `BadArgument` where there are more than 255 vertices, and leaves all other places as they were.
fn embed_part(
    embedder: &mut Embedder,
    given: &GraphArrays<'_>,
    ends: &mut [usize],
    neighbours: &mut [u16],
    x: &mut [i32],
    y: &mut [i32],
    parts: GraphParts,
) -> Result<Outcome, Failure>
    requires points { parts.points.from ≤ parts.points.to }
    requires x { parts.points.to ≤ length x.old }
    requires y { parts.points.to ≤ length y.old }
    requires room { parts.ends.from ≤ parts.ends.to }
    requires ends { parts.ends.to ≤ length ends.old }
    requires entries { parts.neighbours.from ≤ parts.neighbours.to }
    requires neighbours { parts.neighbours.to ≤ length neighbours.old }
    ensures embeds { IsEmbedded given.now.n given.now.edges.now
        (slice_range ends.old parts.ends.from parts.ends.to) (slice_range neighbours.old parts.neighbours.from parts.neighbours.to) (slice_range x.old parts.points.from parts.points.to) (slice_range y.old parts.points.from parts.points.to)
        (slice_range ends.new parts.ends.from parts.ends.to) (slice_range neighbours.new parts.neighbours.from parts.neighbours.to) (slice_range x.new parts.points.from parts.points.to) (slice_range y.new parts.points.from parts.points.to) (outcome_of result) }
    ensures ends { IsChangedWithin parts.ends.from parts.ends.to ends.old ends.new }
    ensures neighbours { IsChangedWithin parts.neighbours.from parts.neighbours.to neighbours.old neighbours.new }
    ensures x { IsChangedWithin parts.points.from parts.points.to x.old x.new }
    ensures y { IsChangedWithin parts.points.from parts.points.to y.old y.new }
{
    let (points, room, entries) = (parts.points, parts.ends, parts.neighbours);
    put_figure(
        embedder,
        given,
        &mut ends[room.from..room.to],
        &mut neighbours[entries.from..entries.to],
        &mut x[points.from..points.to],
        &mut y[points.from..points.to],
    )
}

// Embeds each of `graphs` into the rows, with its status and numbers in `statuses` and `found`.
fn embed_each(
    graphs: &ManyGraphs<'_>,
    ends: &mut [usize],
    neighbours: &mut [u16],
    x: &mut [i32],
    y: &mut [i32],
    statuses: &mut [u8],
    found: &mut [Numbers],
)
    requires points { graphs.now.points ≡ length x.old }
    requires room { graphs.now.room ≡ length ends.old }
    requires entries { graphs.now.entries ≡ length neighbours.old }
    requires given { HaveGraphs graphs.now.vertex_ends.now graphs.now.edge_ends.now graphs.now.edges.now (rows_in ends.old neighbours.old x.old y.old) statuses.old found.old }
    ensures { AreEmbeddedTo graphs.now.vertex_ends.now graphs.now.edge_ends.now graphs.now.edges.now (rows_in ends.old neighbours.old x.old y.old) (rows_in ends.new neighbours.new x.new y.new) statuses.old statuses.new found.old found.new (length statuses.old) }
{
    let mut embedder = Embedder::new(graphs.alloc);
    for i in 0..graphs.vertex_ends.len() {
        let parts = GraphParts {
            points: graphs.points_of(i),
            ends: graphs.ends_of(i),
            neighbours: graphs.neighbours_of(i),
        };
        let given = GraphArrays {
            alloc: graphs.alloc,
            n: parts.points.to - parts.points.from,
            edges: graphs.own_edges(i),
        };
        let call = embed_part(&mut embedder, &given, ends, neighbours, x, y, parts);
        statuses[i] = report(call, &mut found[i]);
    }
}

/// Embeds graphs as `pigale_embed` does: graph i has the vertices from number `vertex_ends[i - 1]` to `vertex_ends[i]`,
/// which its edges number from 0, and the edges from number `edge_ends[i - 1]` to `edge_ends[i]`. It has ten more
/// `ends` than vertices, twice as many `neighbours` as edges, and a point in `x` and `y` for each vertex. Writes these,
/// and of each graph its status and what it names.
#[unsafe(no_mangle)]
pub extern "C" fn pigale_embed_many(
    alloc: Global,
    vertex_ends: &[usize],
    edge_ends: &[usize],
    edges: &[EdgeEnds],
    ends: &mut [usize],
    neighbours: &mut [u16],
    x: &mut [i32],
    y: &mut [i32],
    statuses: &mut [u8],
    found: &mut [Numbers],
) -> u8
    ensures { AreEmbeddedMany vertex_ends.now edge_ends.now edges.now (rows_in ends.old neighbours.old x.old y.old) (rows_in ends.new neighbours.new x.new y.new) statuses.old statuses.new found.old found.new result }
{
    let graphs = ManyGraphs {
        alloc,
        vertex_ends,
        edge_ends,
        edges,
        points: x.len(),
        room: ends.len(),
        entries: neighbours.len(),
    };
    if y.len() != x.len()
        || statuses.len() != vertex_ends.len()
        || found.len() != vertex_ends.len()
        || !graphs.are_given()
    {
        return 17;
    }
    embed_each(&graphs, ends, neighbours, x, y, statuses, found);
    0
}
