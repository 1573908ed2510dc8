//! Longest paths from one vertex of a directed graph whose cycles all pass through it, and a topological order.

mod arc_queue;

pub use arc_queue::{PathTables, longest_paths, topological_order};
