//! What the programs of test rows share: the loop over the rows, arguments parsed, and maps, lists, points and
//! refusals as texts.
//!
//! A row is a line of standard input. It stands for one call of a library, or for a family of calls: what the row
//! shows, a kind (a family, a space and a call), and arguments, with `/` between them. To standard output goes what the
//! row shows, and after it the answer. Lines that begin with `#`, and empty ones, go there as they are.
//!
//! Vertices are numbered from 0. A map is written as its lists with `;` between them, as `1 2;2 0;0 1`, or as the
//! name of a family and a number of vertices, as `wheel 300`.
//!
//! An answer leaves out all that there is no memory for, and a row that asks for nothing has none: the line then
//! differs from the text that is wanted.
//!
//! A check of functions on rows costs most where owned values stand beside one another and where a `?` ends one early.
//! So most owned values are made in one function, which lends them to the next, and writing is a call that cannot fail.
#![tactic(auto)]

pub mod bytes;
pub mod fault_texts;
pub mod lists;
pub mod maps;
pub mod points;
pub mod reply;
pub mod row_arguments;
pub mod rows;
pub mod witnesses;
