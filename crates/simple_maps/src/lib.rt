//! Which rotation lists are a simple map: the tails and twins of its darts, or the first fault of the lists.
#![tactic(auto)]

mod dart_cells;
mod dart_slots;
mod exact_search;
mod fault_search;
mod laws;
mod map_fault;
mod one_sided;
mod twin_pass;

pub use dart_slots::{fill_twins, put_slots};
pub use laws::{first_fault_is_first, no_fault_is_simple};
pub use map_fault::MapFault;
pub use twin_pass::DartSlot;
