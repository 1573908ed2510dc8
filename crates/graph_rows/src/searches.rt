//! Answers test rows on planarity searches: single graphs, lists of graphs, and all graphs of a size, by two methods.
ghost use Rattle.std.specs.Prelude.{◌<◌, ◌≤◌};

use crate::bare_graphs::over_line;
use crate::witnesses::name_of;
use embed_graph::contracted_embeddings::embed_by_sides;
use embed_graph::embed;
use embed_graph::graph_embeddings::Embedding;
use embed_search::{find_witness, planar_lists};
use euler_faces::count_lists;
use graph6_text::read_line;
use graphs::Graph;
use half_edges::{Rotations, VertexId};
use kuratowski::{WitnessVerdict, check_witness};
use left_right_lists::{has_map, map_of_graph};
use row_texts::reply::Reply;
use row_texts::rows::Row;
use std::alloc::{AllocError, Global};

// The text where there is no answer, or a wrong one.
const WRONG: &str = "wrong";

// Returns the number of edges of a graph.
fn edges_of(graph: &Graph) -> u32 {
    let mut m: u32 = 0;
    for u in 0..graph.n() {
        for v in 0..u {
            if graph.has(VertexId(v), VertexId(u)) {
                m = m.wrapping_add(1);
            }
        }
    }
    m
}

// Says whether each entry of the lists is an edge.
fn are_edges(graph: &Graph, lists: &Rotations) -> bool {
    for v in 0..graph.n() {
        if usize::from(v) >= lists.len() {
            return false;
        }
        for u in lists.list(usize::from(v)) {
            if !graph.has(VertexId(v), VertexId(*u)) {
                return false;
            }
        }
    }
    true
}

// Says whether lists are a map of genus zero with exactly the graph's edges.
fn is_drawn(alloc: Global, graph: &Graph, lists: &Rotations) -> bool {
    if lists.len() == 0 || lists.len() > 255 || !are_edges(graph, lists) {
        return false;
    }
    match count_lists(alloc, lists) {
        Ok(count) => count.genus() == 0 && count.m == edges_of(graph),
        Err(_) => false,
    }
}

// Returns the name of the kind of subdivision that the fast search finds and the check accepts, or of something wrong.
fn witness_found(alloc: Global, graph: &Graph) -> &'static str {
    match find_witness(alloc, graph) {
        Ok(Some(witness)) => match check_witness(graph, &witness) {
            WitnessVerdict::Yes => name_of(witness.kind),
            _ => WRONG,
        },
        _ => WRONG,
    }
}

// Returns the name of what the fast searches find: a map, a kind of subdivision, or something wrong.
fn searched(alloc: Global, graph: &Graph) -> &'static str {
    match planar_lists(alloc, graph) {
        Ok(Some(lists)) if is_drawn(alloc, graph, &lists) => "map",
        Ok(None) => witness_found(alloc, graph),
        _ => WRONG,
    }
}

// Returns the name of the kind of `answer`.
fn word_of(answer: Result<Embedding, AllocError>) -> &'static str {
    match answer {
        Ok(Embedding::Map(_)) => "map",
        Ok(Embedding::NotPlanar(witness)) => name_of(witness.kind),
        Err(_) => WRONG,
    }
}

// Returns the name of the answer by sides of edges, if the test by sides and the lists made by sides agree with it.
fn slow_word(alloc: Global, graph: &Graph) -> &'static str
    requires { 0 < graph.now.n }
{
    let word = word_of(embed_by_sides(alloc, graph));
    let planar = word == "map";
    let told = match has_map(alloc, graph) {
        Ok(yes) => yes == planar,
        Err(_) => false,
    };
    let listed = match map_of_graph(alloc, graph) {
        Ok(Some(lists)) => planar && is_drawn(alloc, graph, &lists),
        Ok(None) => !planar,
        Err(_) => false,
    };
    if told && listed { word } else { WRONG }
}

// Returns the names of the answers by the fast searches and by sides of edges.
fn both_ways(alloc: Global, graph: &Graph) -> (&'static str, &'static str)
    requires { 3 ≤ graph.now.n }
{
    (word_of(embed(alloc, graph)), slow_word(alloc, graph))
}

/// Writes what the fast searches find for `graph`, or the answers by both methods.
pub fn of_graph(call: &str, graph: &Graph, out: &mut Reply) {
    if call == "graph" {
        out.put(searched(out.alloc, graph));
    } else if graph.n() >= 3 {
        let (quick, slow) = both_ways(out.alloc, graph);
        out.put(quick);
        out.put(", by sides ");
        out.put(slow);
    }
}

// How many graphs have a map, how many a witness, and of how many something is wrong: by the searches alone, or by both
// ways.
#[derive(Clone, Copy)]
struct Tally {
    alloc: Global,
    both: bool,
    planar: u32,
    other: u32,
    wrong: u32,
}

impl Tally {
    // Counts a graph by the names of two answers for it.
    fn add(&mut self, (found, again): (&str, &str)) {
        if (found == "map") != (again == "map") || found == WRONG || again == WRONG {
            self.wrong = self.wrong.wrapping_add(1);
        } else if found == "map" {
            self.planar = self.planar.wrapping_add(1);
        } else {
            self.other = self.other.wrapping_add(1);
        }
    }

    // Counts the graph of a graph6 line.
    fn add_line(&mut self, line: &[u8]) {
        match read_line(self.alloc, line) {
            Ok(graph) if self.both && graph.n() >= 3 => self.add(both_ways(self.alloc, &graph)),
            Ok(graph) => {
                let found = searched(self.alloc, &graph);
                self.add((found, found));
            }
            Err(_) => self.add((WRONG, WRONG)),
        }
    }

    // Counts the graphs whose lines begin with the byte `first` and have `bits` bits after it, and `length` bytes in
    // all.
    fn add_lines(&mut self, first: u8, bits: u32, length: usize)
        requires bits { bits ≤ 15 }
        requires length { length ≤ 4 }
    {
        for code in 0..1u32 << bits {
            let code = code << (18 - bits);
            let line = [first, byte_of(code, 12), byte_of(code, 6), byte_of(code, 0)];
            self.add_line(&line[..length]);
        }
    }

    // Counts all graphs of `n` vertices, from three to six.
    fn add_all(&mut self, n: u16) {
        match n {
            3 => self.add_lines(b'B', 3, 2),
            4 => self.add_lines(b'C', 6, 2),
            5 => self.add_lines(b'D', 10, 3),
            6 => self.add_lines(b'E', 15, 4),
            _ => {}
        }
    }
}

// Returns six bits of a number, from bit `shift` on, as a byte of a graph6 line.
fn byte_of(bits: u32, shift: u32) -> u8 {
    ((bits >> (shift & 31)) & 63) as u8 + 63
}

/// Answers a row on searches: on the graph of one line, or by the counts of many graphs.
pub fn answer(row: &Row<'_>, out: &mut Reply) {
    if row.call == "graph" || row.call == "both" {
        return over_line(row, out);
    }
    let mut told = Tally {
        alloc: out.alloc,
        both: row.call != "all",
        planar: 0,
        other: 0,
        wrong: 0,
    };
    if row.call == "all" || row.call == "all both" {
        told.add_all(row.number(0));
    } else {
        for line in row.arg(0).split(' ') {
            told.add_line(line.as_bytes());
        }
    }
    out.put_one("planar", u64::from(told.planar));
    out.put_one(" other", u64::from(told.other));
    out.put_one(" wrong", u64::from(told.wrong));
}
