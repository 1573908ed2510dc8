//! Which records have a rectangular dual: the map of a record of this class, or the first condition that it breaks.
#![tactic(auto)]

ghost use Rattle.rect_class.specs.Laws.{RectMapsBreakNothing, BiconnectedAreRectMaps};

mod class_conditions;
mod cyclic_lists;
mod frame_finder;
mod large_faces;
mod separating_triangles;
mod separation_by_corners;
mod upper_neighbours;

pub use class_conditions::rect_map;
pub use frame_finder::{FrameFinder, next_on_face};

/// States the law that a map of the class breaks no condition.
pub fn biconnected_break_nothing()
    ensures { RectMapsBreakNothing }
{
    conn_parts::biconnected_maps::biconnected_break_nothing();
}

/// States the law that a map of the class is a connected near triangulation within a quadrangle, without separating
/// triangle and with more than four vertices.
pub fn biconnected_are_rect_maps()
    ensures { BiconnectedAreRectMaps }
{}
