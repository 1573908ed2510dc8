//! Vertex points by face counts over a construction sequence with faces of any size (Felsner, 2001), in linear time.

mod face_run;
mod point_calls;
mod spots;
mod summed_differences;

pub use face_run::FaceRun;
pub(crate) use point_calls::coordinate;
pub use point_calls::{SpotTable, count_points, count_points_again};
