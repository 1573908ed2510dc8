//! planar_code, the format of plantri: records of rotation lists, narrow and wide.
//!
//! `RecordReader` takes the bytes of a file in pieces, or one by one, and answers each record as it ends; `next_record`
//! reads the record at an offset of bytes that are all there. Both take exactly the records: a clause on each says when
//! each answer comes. Both stand on one scanner, which handles each byte once. `write_record` appends a record that is
//! read back as the same lists. `laws` says of all inputs that each is read, and in one way at most.
#![tactic(auto)]

pub mod laws;
mod number_gathering;
mod open_lists;
mod record_reader;
mod record_scanner;
mod whole_input;
mod write;

pub use record_reader::{Fed, RecordReader, Taken};
pub use whole_input::{CodeFault, Cut, Step, after_header, last_cut, next_record};
pub use write::write_record;

/// The bytes with which a file may begin.
const HEADER: [u8; 15] = *b">>planar_code<<";
