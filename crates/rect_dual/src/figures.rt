//! The answer of the job `rect` to a record, as a value: a rectangular dual, or the first condition the record breaks.

mod drawer;
mod record_figure;

pub use drawer::RectDrawer;
pub use record_figure::rect_figure;
