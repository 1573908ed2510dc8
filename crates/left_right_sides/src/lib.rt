//! Left and right sides of the return edges of a depth-first tree, or that there are none, in blocks.
#![tactic(auto)]

mod fork_items;
mod least_ends;
mod nesting;
mod placing;
mod upward_sides;
mod vertex_forks;

pub use crate::upward_sides::sides;
