//! The construction sequence (run) of a three-connected plane map, as rows, found by removing faces from outside.
//!
//! A row is one step of the sequence: an interval of the contour, its cuts (the indices where the face outside changes)
//! and the new vertices. Marks say which faces are left, and two stacks are their contour, with a current
//! position. The next vertex to remove is sought from there backwards; so the time is about linear in the darts.
#![tactic(auto)]

mod contour;
mod contour_counts;
mod contour_interval;
mod contour_tracing;
mod count_direction;
pub mod face_numbers;
mod interval_cuts;
mod map_tables;
mod next_removal;
mod remaining_faces;
mod removals;
mod removed_faces;
mod row_calls;
mod slice_tools;

pub use map_tables::Tables;
pub use removals::RowTables;
pub use row_calls::{rows_by_faces, rows_in_memory, tables_of};
