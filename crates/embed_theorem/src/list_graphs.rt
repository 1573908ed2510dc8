//! The graph of rotation lists: which vertices are adjacent.

mod adjacent;

pub use adjacent::are_adjacent;
