//! The Schnyder wood (realizer, 1990) of a canonical order of a triangulation, its paths and regions, in linear time.
#![tactic(auto)]

mod colour;
mod parents_by_rank;
mod path_lengths;
pub mod schnyder_regions;
mod wood_of_order;
mod woods;

pub use colour::Colour;
pub use path_lengths::path_len;
pub use schnyder_regions::region_count;
pub use wood_of_order::wood;
pub use woods::Wood;
