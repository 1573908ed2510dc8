//! Searches for the first dart of a map that passes a test, and whether exactly one dart of a vertex does.
#![tactic(auto)]

mod first_passing;
mod list_steps;
mod one_turn;

pub use first_passing::{first_dart, first_dart_from, least_head};
pub use list_steps::{is_below, later_dart};
pub use one_turn::turns_once;
