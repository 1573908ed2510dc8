//! The graphs of an input of graph6 lines, read piece by piece: a header may stand first, and each closed line is
//! judged as it is closed.
//!
//! `GraphReader` takes pieces of bytes, and answers each line's graph. It keeps the open line, and reads no byte twice.

mod ending;
pub mod laws;
mod open_line;
mod reader;

pub use ending::Ending;
pub use reader::GraphReader;
