//! Steps of a construction sequence as lists of numbers: the vertices each adds, and the contour interval under them.

mod rows;

pub use rows::ConvexRows;
