//! The left and right ends of bars, as the least and the greatest column of their edges.
ghost use Rattle.std.specs.Prelude.{◌≡◌, ◌<◌, ◌≤◌, ◌^◌, ◌⊎◌, ℕ, map, pos, length, slice_index, IfOk};
ghost use Rattle.graph_search.specs.Arcs.{arcs_of};
ghost use Rattle.visibility.specs.Ends.{IsLeastOf, IsGreatestOf, AreEnds};

use half_edges::Counts;
use map_lists::ItemLists;
use pg_plane::Ints;
use std::alloc::{AllocError, Global};

// Converts `number`, below 2^31, to a coordinate.
pub(crate) fn coordinate(number: u32) -> i32
    requires { number < 2 ^ 31 }
    ensures { result ≡ pos number }
{
    number as i32
}

// Returns the lesser of `a` and `b`.
pub(crate) fn lesser(a: u32, b: u32) -> u32
    ensures below { result ≤ a }
    ensures below_other { result ≤ b }
    ensures fits { b < 2 ^ 32 }
    ensures one { (result ≡ a) ⊎ (result ≡ b) }
{
    if a < b { a } else { b }
}

// Returns the greater of `a` and `b`.
pub(crate) fn greater(a: u32, b: u32) -> u32
    ensures above { a ≤ result }
    ensures above_other { b ≤ result }
    ensures one { (result ≡ a) ⊎ (result ≡ b) }
{
    if a < b { b } else { a }
}

// Returns the least number of `row`, which is not empty.
fn least(row: &[u32]) -> u32
    requires { 0 < length row.now }
    ensures { IsLeastOf row.now result }
{
    let mut least = row[0];
    for x in row {
        least = lesser(least, *x);
    }
    least
}

// Returns the greatest number of `row`, which is not empty.
fn greatest(row: &[u32]) -> u32
    requires { 0 < length row.now }
    ensures { IsGreatestOf row.now result }
{
    let mut greatest = row[0];
    for x in row {
        greatest = greater(greatest, *x);
    }
    greatest
}

// Returns for each vertex the left end of its bar: the least number in its list of `rows`, which has the columns of its
// edges, at least one. It fails only when out of memory.
pub(crate) fn left_ends(alloc: Global, rows: &ItemLists<u32>) -> Result<Ints, AllocError>
    requires some { (v : ℕ) → v < length rows.now → 0 < length (arcs_of rows.now v) }
    requires low { (v i : ℕ) → slice_index (arcs_of rows.now v) i < 2 ^ 31 }
    ensures { IfOk result (AreEnds rows.now IsLeastOf) }
{
    let mut ends = Ints::with_capacity(alloc, rows.len())?;
    for v in 0..rows.len() {
        ends.push(coordinate(least(rows.list(v))))?;
    }
    Ok(ends)
}

// Returns for each vertex the right end of its bar: the greatest number in its list of `rows`, which has the columns of
// its edges, at least one. It fails only when out of memory.
pub(crate) fn right_ends(alloc: Global, rows: &ItemLists<u32>) -> Result<Ints, AllocError>
    requires some { (v : ℕ) → v < length rows.now → 0 < length (arcs_of rows.now v) }
    requires low { (v i : ℕ) → slice_index (arcs_of rows.now v) i < 2 ^ 31 }
    ensures { IfOk result (AreEnds rows.now IsGreatestOf) }
{
    let mut ends = Ints::with_capacity(alloc, rows.len())?;
    for v in 0..rows.len() {
        ends.push(coordinate(greatest(rows.list(v))))?;
    }
    Ok(ends)
}

// Converts `numbers` to coordinates. It fails only when out of memory.
pub(crate) fn coordinates(alloc: Global, numbers: &Counts) -> Result<Ints, AllocError>
    requires low { (i : ℕ) → slice_index numbers.now i < 2 ^ 31 }
    ensures { IfOk result (λ made. made ≡ map pos numbers.now) }
{
    let mut made = Ints::with_capacity(alloc, numbers.len())?;
    for i in 0..numbers.len() {
        made.push(coordinate(numbers.get(i)))?;
    }
    Ok(made)
}

// Makes `table` `n` entries long: it is cut, or filled up with zeros. It fails only when out of memory.
#[inline(always)]
pub(crate) fn size_ends(table: &mut Vec<i32>, n: usize) -> Result<(), AllocError>
    ensures { IfOk result (λ _. length table.new.items ≡ n) }
{
    if n <= table.len() {
        table.truncate(n);
        return Ok(());
    }
    table.resize(n, 0)?;
    Ok(())
}
