//! Counts the faces inside a closed walk, by a search of the faces.

mod faces_inside;

pub use faces_inside::inside_count;
