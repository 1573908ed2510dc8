//! Maps: the definitions of simple maps, darts, faces, components and genus, and the Euler bound.
#![tactic(auto)]

pub mod euler_bound;
pub mod map_definitions;
