//! St-numberings (st-orders) of biconnected maps: s and t, the ends of an edge, come first and last, and each other
//! vertex has an earlier and a later neighbour.
//!
//! A search from s that sees t next gives each vertex a range of places within its parent's. A vertex stands
//! on the other side of its parent than the vertex at its low point does: so it stands between the two.
#![tactic(auto)]

mod orders;
mod place_ranges;

pub use orders::{StOrder, fill_places, st_order, st_ranks};
pub use place_ranges::Ranges;
