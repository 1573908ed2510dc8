//! The regions of a Schnyder wood (1990), whose vertices are counted by a search of the faces.

mod boundary_paths;
mod closed_paths;
mod region_counts;

pub use region_counts::region_count;
