//! Laws of Schnyder woods (realizers): the wood of a canonical order, an order of a wood, and nested regions.
#![tactic(auto)]

pub mod order_woods;
pub mod wood_orders;
pub mod wood_regions;
