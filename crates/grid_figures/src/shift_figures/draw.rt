//! The figure of a record by the shift method: the public call `shift_figure`, and its steps in kept memory.
ghost use Rattle.std.specs.Prelude.{◌≡◌, ◌<◌, length, Some, None, IfOk, IfErr, OnOk};
ghost use Rattle.map_theory.specs.Maps.{Dart};
ghost use Rattle.plane_laws.specs.Triangulations.{IsTriangulation};
ghost use Rattle.canon_order.specs.Orders.{IsCanonicalOrder, vertices_of};
ghost use Rattle.refusals.specs.Conditions.{first_refusal, IfRefused};
ghost use Rattle.grid_figures.specs.Forms.{IsDrawnBy};
ghost use Rattle.grid_figures.specs.ShiftFiguresFigures.{shift_form, IsShiftFigure};

use crate::Drawer;
use crate::drawing_orders::{Tools, is_triangulated, made_or, order_full};
use crate::record::Record;
use canon_order::Order;
use fpp_shift::Shifter;
use half_edges::Rotations;
use pg_plane::GridFigure;
use refusals::Unserved;
use std::alloc::{AllocError, Global};

// Draws the triangulation of these `lists` by its canonical `order`, by the shift method, in the memory of `shifter`.
// It fails only when out of memory.
fn order_figure(
    shifter: &mut Shifter,
    lists: &Rotations,
    order: &Order,
) -> Result<GridFigure, AllocError>
    requires triangulation { IsTriangulation lists.now }
    requires order { (base : Dart) × IsCanonicalOrder lists.now base (vertices_of order.now) }
    ensures { IfOk result (IsDrawnBy shift_form lists.now (vertices_of order.now)) }
{
    let figure = shifter.list_draw(lists, order)?;
    Ok(figure)
}

// Orders the record `input`, a triangulation, in `tools`, and draws it by that order in the memory of `shifter`. It
// fails only when out of memory.
fn full_figure(
    tools: &mut Tools,
    shifter: &mut Shifter,
    input: &Record<'_>,
) -> Result<GridFigure, AllocError>
    requires { IsTriangulation input.now.lists.now }
    ensures { IfOk result (IsShiftFigure input.now.lists.now) }
{
    crate::drawing_orders::completion_draws();
    order_full(tools.alloc, &mut tools.peeler, input)?;
    let figure = order_figure(shifter, input.lists, &tools.peeler.order)?;
    Ok(figure)
}

// Draws the record `input`, or returns the first condition that it breaks. A triangulation is drawn from its own lists,
// any other map from a completion. `tools` and `shifter` are overwritten, whatever they served before.
pub(crate) fn drawn_record(
    tools: &mut Tools,
    shifter: &mut Shifter,
    input: &Record<'_>,
) -> Result<GridFigure, Unserved>
    ensures figure { IfOk result (IsShiftFigure input.now.lists.now) }
    ensures served { OnOk result (first_refusal 3 input.now.lists.now ≡ None) }
    ensures refused { IfErr result (IfRefused (λ refusal. first_refusal 3 input.now.lists.now ≡ Some refusal)) }
{
    if is_triangulated(&mut tools.counter, input)? {
        let drawn = full_figure(tools, shifter, input)?;
        return Ok(drawn);
    }
    crate::drawing_orders::completion_draws();
    let made = tools.order_record(input)?;
    let lists = made_or(made, &tools.lists, input.lists);
    let figure = order_figure(shifter, lists, &tools.peeler.order)?;
    Ok(figure)
}

/// Returns the figure of a record with these `lists`, which are from 1 to 4095. It is a plane drawing of the map that
/// keeps the rotations, in the grid 2n - 4 by n - 2.
///
/// Vertex 0 stands at (2n - 4, 0), a vertex at (0, 0) and one at (n - 2, n - 2). The second is the first of vertex 0's
/// list, if any. Where the map is connected, the face on the left of vertex 0's first dart is the outer one.
///
/// `Err` names the first condition that the lists break, or says that memory ran out. First come the faults of a map
/// (an entry out of range, a loop, a repeat, a one-sided edge), each with the least vertices. Then come fewer than
/// three vertices, and a genus above zero. The time is linear in the entries.
///
/// Source: de Fraysseix, Pach, Pollack, How to draw a planar graph on a grid, 1990.
pub fn shift_figure(alloc: Global, lists: &Rotations) -> Result<GridFigure, Unserved>
    requires some_list { 0 < length lists.now }
    ensures figure { IfOk result (IsShiftFigure lists.now) }
    ensures served { OnOk result (first_refusal 3 lists.now ≡ None) }
    ensures refused { IfErr result (IfRefused (λ refusal. first_refusal 3 lists.now ≡ Some refusal)) }
{
    let mut drawer = Drawer::new(alloc);
    let figure = drawer.shift_figure(lists);
    drop(drawer);
    figure
}
