//! Dual numbers of an st-order: longest-path numbers of the faces, for each edge that of the face on its left.

mod dual_arcs;
mod dual_calls;
mod edge_order;
mod left_face_rows;
mod numbered_faces;

pub use dual_arcs::face_arcs;
pub use dual_calls::{dual_numbers, dual_rows, rank_rows};
pub use edge_order::edge_columns;
pub use numbered_faces::{FaceTables, number_faces};
