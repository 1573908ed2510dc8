//! Finds the least separating pair of a map of genus zero without cut vertices, by its faces.
//!
//! Two vertices are one where the faces of two darts of the lesser pass the greater, and not along the edge
//! between them. The search begins at the least vertex in any pair, which is found in linear time: of two vertices and
//! two faces that stand on each other one has the most darts, and from there the other three are found by going over
//! vertices and faces with no more darts.

mod darts_of_vertex;
mod face_meetings;
mod first_pair_search;
mod least_vertex;
mod partner_marks;
mod twice_met_faces;
mod twice_met_vertices;
mod uncut_map;
mod vertex_stamps;

pub use first_pair_search::separating_pair_by;
