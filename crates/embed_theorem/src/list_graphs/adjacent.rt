//! Adjacency of two vertices, read off rotation lists.
ghost use Rattle.std.specs.Prelude.{◌≡◌, ◌==◌};
ghost use Rattle.std.specs.List.{list_any};
ghost use Rattle.map_theory.specs.Maps.{IsSimpleMap};
ghost use Rattle.graphs.specs.Graphs.{has_edge};
ghost use Rattle.embed_theorem.specs.ListGraphs.{graph_of};

use map_lists::Rotations;

/// Says whether an edge joins `u` and `v` in a simple map, given by its `lists`.
pub fn are_adjacent(lists: &Rotations, u: u16, v: u16) -> bool
    requires simple { IsSimpleMap lists.now }
    ensures { result ≡ has_edge (graph_of lists.now) u v }
{
    if (u as usize) < lists.len() {
        holds(lists.list(u as usize), v)
    } else {
        false
    }
}

// Says whether `us` has the entry `v`.
fn holds(us: &[u16], v: u16) -> bool
    ensures { result ≡ list_any (λ w. w == v) us.now }
{
    us.contains(&v)
}
