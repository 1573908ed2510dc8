//! Fast answers for bare graphs: rotation lists by the left-right test, and Kuratowski subdivisions by its conflicts.
//!
//! A graph is said to be nonplanar only where a proof of that passed a check. Nothing is promised of rotation lists and
//! subdivisions that are returned: the caller has to check them.
#![tactic(auto)]

mod conflict_marks;
mod kernel;
mod search_calls;
mod shrink;
mod small_graphs;
mod witness_tracing;

pub use search_calls::{Tables, find_witness, planar_lists};
