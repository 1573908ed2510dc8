//! Dual numbers of an st-order, by which visibility drawings are made, and the st-order itself.
#![tactic(auto)]

pub mod bar_laws;
pub mod dual_orders;

pub use dual_orders::dual_numbers;
pub use st_orders::{StOrder, st_order};
