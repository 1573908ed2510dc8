//! The jobs of Pigale, and the top call that runs the words of a command over any source and any sink.
#![tactic(auto)]

mod embed;
mod form_printer;
mod gen_job;
mod job_kinds;
mod job_runs;
mod laws;
mod map_jobs;
mod method;
mod output_lines;
mod part_runs;
mod planar_jobs;
mod record_answers;
mod top_call;
mod verify;

pub use laws::{one_graph_refusal_line, one_refusal_line, one_text, texts_join, whole_is_part};
pub use part_runs::{PartEnd, pigale_part};
pub use pigale_words::{Form, Job, Status, WordFault, job_words, words_to_job};
pub use record_answers::answer_record;
pub use record_runs::{Before, Part};
pub use top_call::pigale;
