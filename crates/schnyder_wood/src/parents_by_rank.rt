//! Parents in a Schnyder wood, by ranks, found from the rows of a canonical order.
//!
//! The first vertex of a row (the contour interval under a vertex w) is the parent of w in colour one, the last one in
//! colour two. All between them have w as their parent in colour three.
ghost use Rattle.std.specs.Prelude.{◌≡◌, ◌<◌, ◌+◌, ℕ, length, slice_index, All, IfOk};
ghost use Rattle.contour_runs.specs.Runs.{Step};
ghost use Rattle.canon_order.specs.Orders.{vertices_of};
ghost use Rattle.order_drawings.specs.Rows.{AreRows};
ghost use Rattle.schnyder_wood.specs.Tables.{AreParentTables, AreNamed};

use canon_order::Order;
use half_edges::Rotations;
use std::alloc::{AllocError, Global};

// Writes to `firsts`, `lasts` and `covers`, filled with zeros before, the parent of each rank in colours one, two and
// three. Rank k + 2 has the first and the last of list k of `rows` as parents in colours one and two. It is the parent
// in colour three of all between them.
pub(crate) fn find_parents(
    firsts: &mut [u16],
    lasts: &mut [u16],
    covers: &mut [u16],
    rows: &Rotations,
)
    requires lasts { length lasts.old ≡ length firsts.old }
    requires covers { length covers.old ≡ length firsts.old }
    requires few { length firsts.old < 4096 }
    requires rows { length rows.now + 2 ≡ length firsts.old }
    requires zeros { (u : ℕ) → (slice_index firsts.old u ≡ 0) × (slice_index lasts.old u ≡ 0) × (slice_index covers.old u ≡ 0) }
    requires run { (steps : ℕ → Step) × AreRows steps rows.now }
    ensures { (steps : ℕ → Step) → AreRows steps rows.now
        → AreParentTables steps (length rows.now) (length firsts.old) firsts.new lasts.new covers.new }
{
    for k in 0..rows.len() {
        let row = rows.list(k);
        let v = k + 2;
        let end = row.len() - 1;
        firsts[v] = row[0];
        lasts[v] = row[end];
        for i in 1..end {
            let u = row[i] as usize;
            covers[u] = v as u16;
        }
    }
}

// Returns the number of the vertex of rank `k` in `order`.
pub(crate) fn name_of(order: &Order, k: u16) -> u16
    requires { k < length (vertices_of order.now) }
    ensures { result ≡ slice_index (vertices_of order.now) k }
{
    order.at.get(k as usize).0
}

// Converts `table`, a rank for each rank, to a vertex for each vertex, by `order`. It fails only when out of memory.
pub(crate) fn named(alloc: Global, table: &[u16], order: &Order) -> Result<Vec<u16>, AllocError>
    requires ranks { All (λ k. k < length table.now) order.now.rank }
    requires within { (k : ℕ) → slice_index table.now k < length (vertices_of order.now) }
    ensures { IfOk result (λ names. AreNamed table.now order.now.rank (vertices_of order.now) names.items) }
{
    let mut names = Vec::new(alloc);
    for v in 0..order.rank.len() {
        names.push(name_of(order, table[order.rank.get(v) as usize]))?;
    }
    Ok(names)
}
