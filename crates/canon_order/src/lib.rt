//! Canonical orders of triangulations: each vertex in turn is put on the outer cycle of those before it.
#![tactic(auto)]

ghost use Rattle.canon_order.specs.Laws.{LastCycle, RowEnds, SomeOrder};

pub mod cycle_marks;
mod fault;
mod order;
mod removable_vertices;
mod triangulation_base;
mod vertex_list_tools;
mod vertex_order;

pub use fault::OrderFault;
pub use order::{Peeler, canon_order, reversed_order};
pub use vertex_list_tools::push_three;
pub use vertex_order::Order;

/// States the law that each triangulation has a canonical order for each base dart.
pub fn some_order()
    ensures { SomeOrder }
{}

/// States the law that the last cycle of a canonical order has three vertices, those of the base's face. So the last
/// vertex is put over all of the cycle before it.
pub fn last_cycle()
    ensures { LastCycle }
{}

/// States the law that a round of a vertex shows its attachment interval from p to q. The vertex is neither of the base
/// nor the last one. In its list, clockwise, the vertices of the interval stand from q back to p, and after p and
/// before q stands a later vertex.
pub fn row_ends()
    ensures { RowEnds }
{}
