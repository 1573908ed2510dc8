//! The answer of the job `bars` to a record, as a value: a visibility drawing, or the first condition that it breaks.

mod drawer;
mod record_figure;

pub use drawer::BarDrawer;
pub use record_figure::bar_figure;
