//! The edges of a graph by number, read out of the bits of its graph6 line and chained to darts.
use crate::bitwise_orientation::{FEW, Few};
use crate::dart_lists::Links;
use crate::fixed_tables::{ByEdge, EDGE_ZEROS, minus, plus, twice};
use graphs::Graph;

/// The edges of a graph by number, each with its two ends.
#[derive(Clone, Copy)]
pub struct Edges {
    /// How many vertices there are.
    pub vertices: u32,
    /// How many edges there are, or below which number theirs are.
    pub count: u32,
    /// How many edges of a graph there are.
    pub size: u32,
    /// For each edge its lesser end.
    pub one: ByEdge,
    /// For each edge its greater end.
    pub other: ByEdge,
}

impl Edges {
    /// The table of no edges.
    pub const FRESH: Edges = Edges {
        vertices: 0,
        count: 0,
        size: 0,
        one: EDGE_ZEROS,
        other: EDGE_ZEROS,
    };

    /// Appends the edge between `u` and `v`.
    #[inline(always)]
    pub fn push(&mut self, u: u32, v: u32) {
        self.one.set(self.count, u);
        self.other.set(self.count, v);
        self.count = plus(self.count, 1);
    }

    /// Counts the edges of `graph` and chains them in `links`, by the greater end and then by the lesser. If there are
    /// more than a plane map can have, it stops one above that number. Their ends are left to `take_ends`.
    pub fn read(&mut self, graph: &Graph, links: &mut Links) {
        self.vertices = u32::from(graph.n());
        links.begin_chains(self.vertices);
        links.degree.fill(self.vertices, 0);
        let most = most_edges(self.vertices);
        let mut place = Place {
            v: 1,
            last: 5,
            count: 0,
        };
        for byte in graph.body() {
            if *byte > 63 {
                place = chain_byte(links, u32::from(*byte - 63), place, plus(most, 1));
                if place.count > most {
                    break;
                }
            }
            place.last = plus(place.last, 6);
        }
        self.count = place.count;
        self.size = place.count;
        links.darts = twice(place.count);
    }

    /// Reads the edges of `graph` into `few` as bits, and into the darts of `links`. Returns false if it has too many
    /// vertices, or more edges than a plane map has: then they are to be read as lists, by `read`.
    pub fn read_few(&mut self, graph: &Graph, links: &mut Links, few: &mut Few) -> bool {
        if u32::from(graph.n()) > FEW {
            return false;
        }
        self.size = few.read(graph, links);
        self.vertices = links.vertices;
        self.count = links.darts / 2;
        self.size <= most_edges(self.vertices)
    }

    /// Copies the ends of `edge` from its darts in `links`.
    #[inline(always)]
    pub fn take_ends(&mut self, links: &Links, edge: u32) {
        self.one.set(edge, links.tail(twice(edge)));
        self.other.set(edge, links.head.get(twice(edge)));
    }

    /// Says whether the graph is K5, if it has no loops and no parallel edges.
    pub fn are_of_k5(&self) -> bool {
        self.vertices == 5 && self.size == 10
    }
}

// The position in the upper triangle of the adjacency matrix that a byte of a graph6 line has: for each `v` its pairs
// with lesser vertices follow one another.
#[derive(Clone, Copy)]
struct Place {
    // the vertex of the row
    v: u32,
    // the lesser vertex of the pair of the byte's last bit, if the row went on so far
    last: u32,
    // how many edges there are so far
    count: u32,
}

// Chains in `links` the edges that the six `bits` of a byte at `place` stand for, until there are `enough` edges.
// Returns the position of the last one, with the new count.
#[inline(always)]
fn chain_byte(links: &mut Links, bits: u32, place: Place, enough: u32) -> Place {
    let mut bits = bits;
    let mut place = place;
    for _ in place.count..enough {
        if bits == 0 {
            break;
        }
        let bit = 31 ^ bits.leading_zeros();
        for _ in 0..256u32 {
            if minus(place.last, bit) < place.v {
                break;
            }
            place.last = minus(place.last, place.v);
            place.v = plus(place.v, 1);
        }
        let u = minus(place.last, bit);
        links.chain_next(place.count, u, place.v);
        place.count = plus(place.count, 1);
        bits = bits ^ (1 << (bit & 31));
    }
    place
}

// Returns the most edges of a simple plane map with this many vertices, or with three where they are fewer.
fn most_edges(vertices: u32) -> u32 {
    minus(vertices.max(3).wrapping_mul(3), 6)
}
