//! Checks of straight-line drawings: whether all points lie in the grid, the drawing is plane, and each
//! vertex has its neighbours in the order of its list. Where not, they say which fault comes first. Other checks
//! go by the faces of a triangulation, and say of a connected map whether the face of a base dart is the outer one.
#![tactic(auto)]

ghost use Rattle.draw_check.specs.FaceLaws.{FacesYesForFewer, FacesYesIsYes};
ghost use Rattle.drawings.specs.Laws.{ValidWithFewer};
ghost use Rattle.draw_check.specs.Laws.{YesIsPlane, YesIsValid};

mod bounding_boxes;
mod corner_check;
mod crossing_edges;
mod drawing;
mod drawing_check;
mod edge_meetings;
mod excluded_vertices;
mod face_areas;
mod face_check;
mod list_rotation;
mod outer_face;
mod sorted_neighbours;
mod star_boxes;
mod star_crossings;
mod verdict;
mod vertex_points;
mod vertices_on_edges;
mod wedges;

pub use corner_check::is_drawn_well;
pub use drawing_check::{check, check_plane, check_points};
pub use face_check::{check_by_faces, check_points_by_faces};
pub use outer_face::{check_outer, check_outer_connected};
use plane_drawings::drawings::counterclockwise_is_plane;
pub use verdict::{FaceVerdict, OuterVerdict, Verdict};

/// States the law that the verdict is `Yes` exactly for plane drawings that lie in the grid and keep the rotations.
pub fn yes_is_valid()
    ensures { YesIsValid }
{}

/// States the law that [`check_plane`] answers `Yes` exactly for plane drawings.
pub fn yes_is_plane()
    ensures { YesIsPlane }
{}

/// States the law that where `check_by_faces` answers `Yes`, `check` does.
pub fn faces_yes_is_yes()
    ensures { FacesYesIsYes }
{
    counterclockwise_is_plane();
}

/// States the law that where `check_by_faces` answers `Yes` for a completion of a map, `check` does for the map itself.
/// The face of the base is then the outer one: `check_outer` answers `Yes` too.
pub fn faces_yes_for_fewer()
    ensures { FacesYesForFewer }
{
    faces_yes_is_yes();
}
