//! Renumbers the vertices of a witness by a table.

mod laws;
mod rename;

pub use laws::renamed_witness;
pub use rename::renamed;
