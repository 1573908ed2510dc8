//! Bytes in and bytes out: what the program reads from and writes to.
//!
//! A [`Source`] gives bytes and a [`Sink`] takes them, in pieces of any size. Each counts its faults, and a call
//! fails only where that count rose. So a caller that sees no count rise knows that nothing failed. Where a contract
//! sees the bytes that a source has left, and those that a sink holds, each read and each write is exact on them.
//!
//! [`MemSource`] and [`MemSink`] stand in memory and fail exactly where they are set to; [`SureSource`] and
//! [`SureSink`] never fail. [`ReadAdapter`] and [`WriteAdapter`] take the readers and writers of `std`, and tell
//! nothing of their bytes. [`put_all`] writes a whole slice.
#![tactic(auto)]

mod adapters;
mod memory;
mod never_failing;
mod step_counts;
mod traits;
mod whole_writes;

pub use adapters::{ReadAdapter, WriteAdapter};
pub use memory::{MemSink, MemSource};
pub use never_failing::{SureSink, SureSource};
pub use step_counts::Steps;
pub use traits::{ReadFailed, Sink, Source, WriteFailed};
pub use whole_writes::put_all;
