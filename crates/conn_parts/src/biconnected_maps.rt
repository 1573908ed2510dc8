//! Makes the biconnected map of a record: connected, of genus zero and without cut vertex; or returns the first
//! condition that it breaks.

ghost use Rattle.conn_parts.specs.Laws.{BiconnectedBreakNothing};

mod biconnected;

pub use biconnected::{SearchedMap, biconnected_map, searched_map};

/// States the law that the lists of a biconnected map break none of the conditions by which `biconnected_map` refuses.
pub fn biconnected_break_nothing()
    ensures { BiconnectedBreakNothing }
{
    refusals::no_refusal_is_plane();
}
