//! The Euler count of a map (vertices, edges, faces, components and genus), component numbers, its faces as walks along
//! the face step, and a search over chains of faces.
#![tactic(auto)]

mod component_search;
mod euler_counts;
mod face_chains;
mod face_counts;
mod face_walks;
mod found_faces;
mod half_map_counts;
mod stored_map;

pub use component_search::{UNMET, number_components};
pub use euler_counts::{Counter, EulerCount, count_lists, euler, euler_by_twins};
pub use face_chains::mark_reached;
pub use face_walks::Faces;
pub use found_faces::faces;
pub use half_map_counts::euler_by_components;
