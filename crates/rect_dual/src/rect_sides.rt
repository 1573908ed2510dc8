//! The right and the upper sides of the boxes, from the rows, the turns, and the left and the lower sides.

ghost use Rattle.std.specs.Prelude.{◌≡◌, ◌<◌, ◌+◌, ℕ, length, slice_index, All};
ghost use Rattle.contour_runs.specs.Runs.{Step};
ghost use Rattle.order_drawings.specs.Rows.{AreRows};
ghost use Rattle.rect_dual.specs.Sides.{AreTurnPlaces, IsWritten, AreSides};

use crate::rect_turns::TurnedRows;
use crate::side_lines::RowNumbers;

/// Sets `sides[v]` to `side` for each vertex `v` of `piece`, a part of a row.
pub(crate) fn put_side(sides: &mut [u32], piece: &[u16], side: u32)
    requires { All (λ u. u < length sides.old) piece.now }
    ensures { IsWritten sides.old sides.new piece.now 0 (length piece.now) side }
{
    for j in 0..piece.len() {
        sides[piece[j] as usize] = side;
    }
}

/// Fills in the right and the upper side of each box, by rank, in `right` and `high`, where at first all reach to the
/// end of the grid. The vertices of a row up to its turn (where horizontal edges begin) end where the new box begins,
/// by `numbers`, and those after it below the new box. The time is linear in the rows.
pub(crate) fn fill_sides(
    right: &mut [u32],
    high: &mut [u32],
    turned: &TurnedRows<'_>,
    numbers: &RowNumbers,
)
    requires xs { length numbers.now.x.items ≡ length turned.now.rows.now + 2 }
    requires ys { length numbers.now.y.items ≡ length turned.now.rows.now + 2 }
    requires right { length right.old ≡ length turned.now.rows.now + 2 }
    requires high { length high.old ≡ length turned.now.rows.now + 2 }
    ensures { (steps : ℕ → Step) (width ceiling : ℕ) → AreRows steps turned.now.rows.now → AreTurnPlaces steps (length turned.now.rows.now) turned.now.places.now
        → ((v : ℕ) → v < length turned.now.rows.now + 2 → slice_index right.old v ≡ width) → ((v : ℕ) → v < length turned.now.rows.now + 2 → slice_index high.old v ≡ ceiling)
        → AreSides steps (length turned.now.rows.now) (length turned.now.rows.now + 2) (slice_index numbers.now.x.items) (slice_index numbers.now.y.items) width ceiling right.new high.new }
{
    let TurnedRows { rows, places, .. } = *turned;
    for k in 0..rows.len() {
        let (left, above) = rows.list(k).split_at(places[k] + 1);
        put_side(right, left, numbers.x[k + 2]);
        put_side(high, above, numbers.y[k + 2]);
    }
}
