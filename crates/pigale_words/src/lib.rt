//! The words of the program's command line: which job they name, with its form and numbers, and how a run can end.
#![tactic(auto)]

mod command_words;
mod decimal_numbers;
mod job;
mod output_form;

pub use command_words::{job_words, words_to_job};
pub use job::{Job, Status, WordFault};
pub use output_form::Form;
