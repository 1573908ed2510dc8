//! The figures of an input, read piece by piece: each closed line is judged as a figure line or a note between them.
//!
//! `FigureReader` takes pieces of bytes, and answers each figure as its last line is closed. It keeps the open
//! line and what the lines of a figure have given, and looks at no byte twice. `read_figure` answers what stands at an
//! offset of a text that is all there.

mod begun_figure;
mod boxed;
mod closed_line;
mod ending;
mod first_line;
pub mod laws;
mod line_batch;
mod open_line;
mod reader;
mod vertex_lines;
mod whole_text;

pub use ending::Ending;
pub use reader::FigureReader;
pub use whole_text::read_figure;
