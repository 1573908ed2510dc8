//! Tools on slices and vectors: a part of a slice, and a vector refilled in its memory.
ghost use Rattle.std.specs.Prelude.{◌≡◌, ◌≤◌, length, replicate, slice_range, IfOk};

use std::alloc::AllocError;

/// Returns the entries of `ws` from index `start` on and before index `end`.
pub(crate) fn part(ws: &[u16], start: usize, end: usize) -> &[u16]
    requires order { start ≤ end }
    requires within { end ≤ length ws.now }
    ensures { result.now ≡ slice_range ws.now start end }
{
    &ws[start..end]
}

/// Replaces the contents of `row` by `count` copies of `item`. It fails only when out of memory.
pub(crate) fn refill<T: Copy>(row: &mut Vec<T>, item: T, count: usize) -> Result<(), AllocError>
    ensures { IfOk result (λ _. row.new.items ≡ replicate count item) }
{
    row.clear();
    row.resize(count, item)?;
    Ok(())
}
