//! Blocks of return edges whose sides are known of each other, for a left-right planarity test in linear time.
//!
//! Each part of a depth-first tree is a stack of blocks: the edges that return from there, in blocks of which the sides are
//! known of each other. At a vertex the parts below it are trimmed of what ends there and put into one stack, as the
//! vertex's forks demand of sides. What was trimmed is tied to what was left, so that all sides are told at the end.
#![tactic(auto)]

mod blocks;
mod fork_edges;
mod gathers;
mod merges;
mod sides;
mod ties;
mod trims;

pub use blocks::{Blocks, Fork};
pub use fork_edges::ForkEdge;
pub use ties::Tie;
