//! Planarity of graphs of at most six vertices, tested by bits of neighbours.
//!
//! A subdivision of K3,3 in it is a K3,3, and one of K5 is a K5 in which at most one edge is subdivided.
use left_right_test::{Edges, minus};

// The greatest number of vertices.
const MOST_VERTICES: u32 = 6;

// For each vertex its bit, of which there are two more than are used.
const BITS: [u32; 8] = [1, 2, 4, 8, 16, 32, 64, 128];

// The bits of all vertices.
const ALL: u32 = 63;

// The bits of three vertices, of which vertex 0 is one.
const SIDES: [u32; 10] = [7, 11, 19, 35, 13, 21, 37, 25, 41, 49];

// Returns the bit of `vertex`.
fn bit(vertex: u32) -> u32 {
    BITS[vertex as usize % 8]
}

// Says whether a graph of at most six vertices contains K3,3. `near` has for each vertex its neighbours, as bits.
fn has_k33(near: &[u32; 8]) -> bool {
    for place in 0..SIDES.len() {
        let side = SIDES[place];
        let rest = ALL ^ side;
        let mut joined = true;
        for vertex in 0..MOST_VERTICES {
            if side & bit(vertex) != 0 && near[vertex as usize % 8] & rest != rest {
                joined = false;
                break;
            }
        }
        if joined {
            return true;
        }
    }
    false
}

// Says whether a graph of at most six vertices contains K5, or K5 with one edge subdivided. `near` has for each vertex
// its neighbours, as bits.
fn has_k5(near: &[u32; 8]) -> bool {
    for vertex in 0..MOST_VERTICES {
        let others = ALL ^ bit(vertex);
        // the bits of those that are no neighbours of some other one
        let mut lack = 0;
        for other in 0..MOST_VERTICES {
            let own = bit(other);
            if others & own != 0 {
                lack |= others & !near[other as usize % 8] & !own;
            }
        }
        let but_one = lack & minus(lack, 1);
        let are_two_at_most = but_one & minus(but_one, 1) == 0;
        if are_two_at_most && lack & near[vertex as usize % 8] == lack {
            return true;
        }
    }
    false
}

/// Says whether `edges` have at most six vertices.
pub fn has_few_vertices(edges: &Edges) -> bool {
    edges.vertices <= MOST_VERTICES
}

/// Says whether `edges` without edge `out`, of at most six vertices, are those of a planar graph.
pub fn is_planar_without(edges: &Edges, out: u32) -> bool {
    // for each vertex the bits of its neighbours
    let mut near = [0; 8];
    for edge in 0..edges.count {
        if edge != out {
            let (one, other) = (edges.one.get(edge), edges.other.get(edge));
            near[one as usize % 8] |= bit(other);
            near[other as usize % 8] |= bit(one);
        }
    }
    !has_k33(&near) && !has_k5(&near)
}
