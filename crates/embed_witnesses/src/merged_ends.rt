//! Graphs in which the lesser end of an edge has the neighbours of both ends, and the greater none.

mod laws;
mod renumbered_witnesses;

pub use laws::merged_is_contracted;
pub use renumbered_witnesses::on_old_numbers;
