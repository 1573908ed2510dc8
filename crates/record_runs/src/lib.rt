//! The main loop of the program: the records of an input are read piece by piece, answered one by one, and their
//! answers written block by block.
//!
//! A [`Format`] reads the records, and a [`Job`] answers them; [`run_records`] runs any job over any
//! format, from any source to any sink. Its contract says for each way of ending what was taken and
//! what was written, so a new format or a new job proves no loop.
#![tactic(auto)]

mod format;
mod job;
mod main_loop;
mod part_job;
mod piece_steps;

pub use format::{Format, Taken};
pub use job::Job;
pub use main_loop::{Ended, RunEnd, run_counted, run_records};
pub use part_job::{Before, Part, PartJob, PartKind};

/// The most bytes of an input that are read.
pub const INPUT_LIMIT: usize = 16777216;

/// The most bytes that one read may give.
pub const BUFFER: usize = 4096;
