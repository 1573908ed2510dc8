//! Two tables by ranks that tell horizontal edges (runs) from vertical ones (rises).
ghost use Rattle.std.specs.Prelude.{◌≡◌, ◌<◌, ◌+◌, ℕ, length, slice_index, vec_len, IfOk};
ghost use Rattle.rect_dual.specs.EdgeLabelsTables.{AreFirsts, AreLefts};

use crate::rect_sides::put_side;
use crate::rect_turns::TurnedRows;
use std::alloc::{AllocError, Global};

/// For each vertex, by its rank, the first vertex of its row, and the last vertex put on to whose left it stands.
#[derive(Drop)]
pub(crate) struct RunTables {
    pub first: Vec<u32>,
    pub left: Vec<u32>,
    ghost size: { vec_len left ≡ vec_len first },
}

// Fills the tables `first` and `left` of [`RunTables`], which are zeros before, from the rows and turns of `turned`.
fn fill_tables(first: &mut [u32], left: &mut [u32], turned: &TurnedRows<'_>)
    requires first { length first.old ≡ length turned.now.rows.now + 3 }
    requires left { length left.old ≡ length turned.now.rows.now + 3 }
    requires first_zeros { (v : ℕ) → v < length turned.now.rows.now + 3 → slice_index first.old v ≡ 0 }
    requires left_zeros { (v : ℕ) → v < length turned.now.rows.now + 3 → slice_index left.old v ≡ 0 }
    ensures firsts { AreFirsts turned.now.rows.now (length turned.now.rows.now) first.new }
    ensures lefts { AreLefts turned.now.rows.now turned.now.places.now (length turned.now.rows.now) left.new }
{
    let TurnedRows { rows, places, .. } = *turned;
    for k in 0..rows.len() {
        let row = rows.list(k);
        first[k + 2] = row[0] as u32;
        put_side(left, row.split_at(places[k] + 1).0, k as u32 + 2);
    }
}

/// Returns the tables that tell horizontal edges from vertical ones, made from the rows and turns of `turned`. It fails
/// only when out of memory.
pub(crate) fn run_tables(alloc: Global, turned: &TurnedRows<'_>) -> Result<RunTables, AllocError>
    ensures first { IfOk result (λ tables. length tables.first.items ≡ length turned.now.rows.now + 3) }
    ensures left { IfOk result (λ tables. length tables.left.items ≡ length turned.now.rows.now + 3) }
    ensures firsts { IfOk result (λ tables. AreFirsts turned.now.rows.now (length turned.now.rows.now) tables.first.items) }
    ensures lefts { IfOk result (λ tables. AreLefts turned.now.rows.now turned.now.places.now (length turned.now.rows.now) tables.left.items) }
{
    let mut first = vec![in alloc; 0; turned.rows.len() + 3]?;
    let mut left = vec![in alloc; 0; turned.rows.len() + 3]?;
    fill_tables(&mut first, &mut left, turned);
    Ok(RunTables { first, left })
}
