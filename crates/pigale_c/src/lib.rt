//! Pigale as a library for C: calls over plain numbers and arrays, each with the clauses of the call that it makes.
//!
//! A map is given by `neighbours`, the lists of its vertices concatenated in clockwise order, and `ends`, where the
//! list of each vertex ends in it. The numbers beside a status are the vertices, from 0, or the count that it names.
#![tactic(auto)]

pub mod bars;
pub mod canonical_orders;
pub mod checks;
pub mod counts;
pub mod cut;
pub mod edge_drawings;
mod edge_faults;
pub mod edge_labellings;
mod edge_lists;
mod edge_orders;
pub mod edges;
pub mod embeds;
pub mod face_walks;
pub mod graph_maps;
pub mod grids;
pub mod many_bars;
pub mod many_checks;
pub mod many_counts;
pub mod many_graphs;
pub mod many_maps;
pub mod many_rects;
mod map_arrays;
pub mod outcome;
pub mod ports;
pub mod rects;
pub mod run;
pub mod run_part;
pub mod st_numbers;
pub mod version;
mod witness_paths;
pub mod woods;
mod word_split;
