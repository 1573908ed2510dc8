//! Faults of edges in an array: ends that are no vertices, loops, and two edges between the same vertices.
ghost use Rattle.std.specs.Prelude.{◌≡◌, ◌<◌, length, MatchOption};
ghost use Rattle.pigale_c.specs.EdgeLists.{AreProper, IsEdgeFault, is_between as is_between_of, times_joined};

use crate::edges::EdgeEnds;
use crate::outcome::EdgeFault;

/// Returns the first of `edges` with a fault of its own: an end that is not below `n`, or twice the same end.
pub(crate) fn first_improper(n: u16, edges: &[EdgeEnds]) -> Option<EdgeFault>
    requires { length edges.now < 16777216 }
    ensures { MatchOption result (AreProper n edges.now) (IsEdgeFault n edges.now) }
{
    for i in 0..edges.len() {
        let edge = edges[i];
        if edge.a >= n || edge.b >= n {
            return Some(EdgeFault::NoVertex(i as u32));
        }
        if edge.a == edge.b {
            return Some(EdgeFault::SelfLoop(i as u32));
        }
    }
    None
}

// Says whether `edge` joins `v` and `u`, either way round.
fn is_between(v: u16, u: u16, edge: EdgeEnds) -> bool
    ensures { result ≡ is_between_of v u edge }
{
    edge.a == v && edge.b == u || edge.a == u && edge.b == v
}

/// Returns the first two of `edges` that join `v` and `u`, if there are two.
pub(crate) fn first_twice(n: u16, edges: &[EdgeEnds], v: u16, u: u16) -> Option<EdgeFault>
    requires { length edges.now < 16777216 }
    ensures { MatchOption result (times_joined v u edges.now < 2) (IsEdgeFault n edges.now) }
{
    let mut first = None;
    for i in 0..edges.len() {
        if is_between(v, u, edges[i]) {
            if let Some(j) = first {
                return Some(EdgeFault::Twice(j, i as u32));
            }
            first = Some(i as u32);
        }
    }
    None
}
