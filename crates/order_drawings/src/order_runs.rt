//! Law: a canonical order of a triangulation is a construction sequence (a run), whose faces are those of the map. What
//! is proved of construction sequences then holds of canonical orders.

ghost use Rattle.order_drawings.specs.OrderRuns.{OrderIsRun};

/// States the law that the outer cycles of a canonical order are the contours of a construction sequence (a run), whose
/// last vertex covers all but the base. Each face that it makes is a face of the map. Each face of the map is made but
/// the one on the other side of the base.
pub fn order_is_run()
    ensures { OrderIsRun }
{
    canon_order::last_cycle();
}
