//! Completes a record's map to a triangulation with a canonical order, or returns the first condition that it breaks.

ghost use Rattle.grid_figures.specs.DrawingOrdersLaws.{CompletionDraws, SomeCompletion};

mod completed_records;
mod triangulated_records;

pub(crate) use completed_records::{Tools, made_or};
pub use completed_records::{DrawingOrder, drawing_order};
pub(crate) use triangulated_records::{is_triangulated, order_full};

/// States the law that a plane grid drawing of a completion (triangulation with added edges) of a map is a valid
/// drawing of the map. Where the map is connected, the face of vertex 0's first dart is outside.
pub fn completion_draws()
    ensures { CompletionDraws }
{}

/// States the law that a simple map of genus zero with three vertices or more can be completed to a triangulation.
pub fn some_completion()
    ensures { SomeCompletion }
{
    plane_laws::map_edits::completion();
}
