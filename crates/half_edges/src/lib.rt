//! Half-edge maps: simple maps as darts with ids, made from rotation lists, with edges added and removed.
//!
//! `Rotations` holds the neighbour lists of a record as they were read. `HalfMap::from_rotations` takes
//! them exactly where they are a simple map, and names the first fault otherwise. Contracts see a
//! `HalfMap` as its lists, its spare room and which id is which dart, and never what an id is made of.
#![tactic(auto)]

mod dart_records;
mod edge_edits;
mod half_map;
mod submaps;

pub use edge_edits::Corner;
pub use half_map::{HalfMap, MapMaker, MapMemory};
pub use map_lists::{
    Counts, DartId, EdgeList, Ends, FaceId, PathList, Rotations, VertexId, VertexList,
};
pub use simple_maps::MapFault;
