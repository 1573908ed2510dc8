//! The promises of the libraries: the clauses of each public call's contract, said again and proved by the call alone.
//!
//! A clause that is taken away from a call, or weakened, fails here. So this is also the list to read first: what
//! each call returns, and what its words mean is in `docs/DEFINITIONS.md`.
#![tactic(auto)]

pub mod bar_drawings;
pub mod checks;
pub mod contractions;
pub mod convex_drawings;
pub mod embeddings;
pub mod faces;
pub mod formats;
pub mod geometry;
pub mod laws;
pub mod maps;
pub mod orders;
pub mod parts;
pub mod permutations;
pub mod record_classes;
pub mod rectangles;
pub mod schnyder_drawings;
pub mod shift_drawings;
pub mod texts;
pub mod witness_texts;
pub mod writes;
