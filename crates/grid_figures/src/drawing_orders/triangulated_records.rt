//! Records that are triangulations already: recognized by their counts, and ordered by their lists, with no map made.
ghost use Rattle.std.specs.Prelude.{◌≡◌, slice_index, Some, None, IfOk, IfErr, OnOk};
ghost use Rattle.std.specs.Bool.{OnTrue};
ghost use Rattle.map_theory.specs.Maps.{list_of};
ghost use Rattle.plane_laws.specs.Triangulations.{IsTriangulation};
ghost use Rattle.canon_order.specs.Orders.{IsCanonicalOrder, vertices_of};
ghost use Rattle.refusals.specs.Conditions.{first_refusal, IfRefused};

use crate::record::Record;
use canon_order::Peeler;
use conn_parts::plane_count;
use euler_faces::Counter;
use refusals::Unserved;
use std::alloc::{AllocError, Global};

/// Returns true only for a triangulation; false promises nothing, and comes at once unless there are 6n - 12 entries.
/// `Err` is the first condition that the lists of `input` break, or no memory. `counter` is overwritten.
pub(crate) fn is_triangulated(counter: &mut Counter, input: &Record<'_>) -> Result<bool, Unserved>
    ensures triangulation { IfOk result (λ found. OnTrue found (IsTriangulation input.now.lists.now)) }
    ensures served { IfOk result (λ found. OnTrue found (first_refusal 3 input.now.lists.now ≡ None)) }
    ensures refused { IfErr result (IfRefused (λ refusal. first_refusal 3 input.now.lists.now ≡ Some refusal)) }
{
    if input.lists.total().wrapping_add(12) != 6 * input.lists.len() {
        return Ok(false);
    }
    let count = plane_count(counter, input.lists, 3)?;
    Ok(count.m.wrapping_add(6) == 3 * count.n)
}

/// Leaves in `peeler.order` a canonical order of the triangulation `input`, with vertex 0's first dart as the base.
pub(crate) fn order_full(
    alloc: Global,
    peeler: &mut Peeler,
    input: &Record<'_>,
) -> Result<(), AllocError>
    requires { IsTriangulation input.now.lists.now }
    ensures order { OnOk result (IsCanonicalOrder input.now.lists.now (0, slice_index (list_of input.now.lists.now 0) 0) (vertices_of peeler.new.order)) }
{
    peeler.order_lists(alloc, input.lists, 0, input.lists.list(0)[0])
}
