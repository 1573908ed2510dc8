//! The check of a proof that a graph is not planar: a rooted forest of it, and return edges that forks force to one
//! side and to different sides.
#![tactic(auto)]

mod complete_five;
mod forests;
mod side_ties;

pub use complete_five::is_k5;
pub use forests::{ReturnEdge, RootedForest, after_steps, entry, is_forest};
pub use side_ties::{Fork, Pair, turned};
