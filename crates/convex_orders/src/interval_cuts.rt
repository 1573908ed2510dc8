//! The cuts of an interval of the contour: the positions in it at which the face outside changes.
ghost use Rattle.std.specs.Prelude.{◌≡◌, ◌+◌, ◌<◌, ℕ, if◌then◌else◌, [], ◌∷◌, ◌++◌, length, slice_index, IfOk};
ghost use Rattle.convex_orders.specs.Contours.{number_at};
ghost use Rattle.convex_orders.specs.Cuts.{AreCutPlaces, IsCutRow};

use crate::contour_interval::ContourInterval;
use std::alloc::AllocError;

// Appends `x` to `row`, unless `test` holds.
fn push_unless(row: &mut Vec<u16>, test: bool, x: u16) -> Result<(), AllocError>
    ensures { IfOk result (λ _. row.new.items ≡ (if test then row.old.items else (row.old.items ++ x ∷ []))) }
{
    if !test {
        row.push(x)?;
    }
    Ok(())
}

/// Fills `row` with the cuts of the interval `stretch`, as offsets from its first vertex: both ends, and where the face
/// outside changes. `outer` has by vertex the face outside of the edge to the next. It fails only when out of memory.
pub(crate) fn put_cuts(
    row: &mut Vec<u16>,
    outer: &[u32],
    stretch: &ContourInterval<'_>,
) -> Result<(), AllocError>
    requires few { length stretch.now.ws.now < 65536 }
    requires vertices { (p : ℕ) → p < stretch.now.last → slice_index stretch.now.ws.now p < length outer.now }
    ensures { IfOk result (λ _. (count : ℕ) (cut : ℕ → ℕ) → AreCutPlaces (number_at outer.now stretch.now.ws.now) stretch.now.first stretch.now.last count cut → IsCutRow row.new.items stretch.now.first count cut) }
{
    let ContourInterval {
        ws,
        first,
        last,
        ..
    } = *stretch;
    row.clear();
    row.push(0)?;
    let mut number = outer[ws[first] as usize];
    for p in first + 1..last {
        let next = outer[ws[p] as usize];
        push_unless(row, number == next, (p - first) as u16)?;
        number = next;
    }
    row.push((last - first) as u16)?;
    Ok(())
}
