//! The graph with an edge contracted, by the call `contract`.

mod contracted;

pub use contracted::contract;
