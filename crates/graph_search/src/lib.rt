//! Searches of maps and graphs: depth-first forests with low points, cut vertices and separating pairs, longest paths.
#![tactic(auto)]

pub mod list_cuts;
pub mod longest_paths;
pub mod search_forests;
