//! Whether a graph is K5, the complete graph on five vertices, which needs no search.
ghost use Rattle.std.specs.Prelude.{IsTrue};
ghost use Rattle.left_right_check.specs.Ties.{HasNoMap};

use graphs::Graph;

// The ten bits of the edges of K5 as the two bytes of a graph6 line, six bits a byte.
const ALL: [u8; 2] = [126, 123];

/// Says whether `graph` is K5, the complete graph on five vertices; a yes is proved to mean no map of genus zero.
pub fn is_k5(graph: &Graph) -> bool
    ensures { IsTrue result → HasNoMap graph.now }
{
    if graph.n() != 5 {
        return false;
    }
    let bits = graph.body();
    if bits.len() != 2 || bits[0] != ALL[0] {
        return false;
    }
    bits[1] == ALL[1]
}
