//! The text of figures, one line for each vertex: printed, and judged and read line by line.
//!
//! `print_figure` appends the text of a figure: a first line, and a line for each vertex. This tells its place and its
//! neighbours in clockwise order, all numbered from 1. For bars a line of the columns comes last. A witness has its
//! graph in the first line, then a line of the branches and one for each path. `Item` is what stands at an offset of a
//! text: a figure, another job's note, or the end. `TextFault` is the bad line. Both are read in `line_inputs`. `laws`
//! says that what is printed is read as the same figure, whatever follows, and that an offset has one answer.
#![tactic(auto)]

mod backward_writing;
mod fault;
mod figure;
mod figure_ends;
mod first_lines;
mod front_pieces;
pub mod laws;
mod line_shapes;
mod line_words;
mod number_texts;
mod plain_numbers;
mod print;
mod text_lines;
mod vertex_fronts;
mod vertex_lines;
mod vertex_print;
mod witness_print;

pub use fault::TextFault;
pub use figure::{Figure, GridJob};
pub use figure_ends::{Columns, Item, columns_line, draft_rects, draft_witness};
pub use first_lines::{Front, front_graph, front_line};
pub use line_shapes::{Judged, Kind};
pub use line_words::{Name, Signed, Word};
pub use print::{Printer, print_figure};
pub use text_lines::{line_length, next_line};
pub use vertex_lines::{Draft, VertexLine};
pub use witness_print::print_witness;
