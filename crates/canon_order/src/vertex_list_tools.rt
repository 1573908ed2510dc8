//! Tools on lists of vertices: counters by vertex, the successor of a list entry, and positions in an order.
ghost use Rattle.std.specs.Prelude.{◌≡◌, ◌+◌, ◌<◌, ◌≤◌, ◌==◌, ℕ, false, true, [], ◌∷◌, ◌++◌, map, filter, reverse, length, slice_index, count_by, All, AllPairs, Contains, ◌≢◌, IfOk, vec_len, vec_capacity};
ghost use Rattle.map_theory.specs.Maps.{entry_after};
ghost use Rattle.canon_order.specs.Marks.{is_set, is_untouched};
ghost use Rattle.canon_order.specs.Ranks.{IsRankOf};

use half_edges::{Counts, VertexId};
use std::alloc::{AllocError, Global};

// Adds one in `counts`, a count by vertex, for each vertex of `entries`.
pub(crate) fn raise(counts: &mut [u16], entries: &[u16])
    requires within { All (λ u. u < length counts.old) entries.now }
    requires room { (w : ℕ) → slice_index counts.old w + count_by (λ u. u == w) entries.now < 65536 }
    ensures { (w : ℕ) → w < length counts.old → slice_index counts.new w ≡ slice_index counts.old w + count_by (λ u. u == w) entries.now }
{
    for u in entries {
        counts[*u as usize] += 1;
    }
}

// Returns 1 where `is_marked` is true and `count` is two, and else 0.
#[inline(always)]
fn marked_twos(is_marked: bool, count: u16) -> usize
    ensures one { is_marked ≡ true → count ≡ 2 → result ≡ 1 }
    ensures few { result ≤ 1 }
{
    let two = if count == 2 { 1 } else { 0 };
    if is_marked { two } else { 0 }
}

// Pushes `u` on `stack`, which has room for it, if it is marked in `marked` and its entry in `counts` is two.
#[inline(always)]
pub(crate) fn note(counts: &[u16], stack: &mut Vec<u16>, marked: &[bool], u: u16)
    requires counts { u < length counts.now }
    requires marks { u < length marked.now }
    requires room { vec_len stack.old < vec_capacity stack.old }
    ensures kept { (w : ℕ) → Contains stack.old.items w → Contains stack.new.items w }
    ensures vertices { (n : ℕ) → u < n → All (λ w. w < n) stack.old.items → All (λ w. w < n) stack.new.items }
    ensures noted { is_set marked.now u ≡ true → slice_index counts.now u ≡ 2 → Contains stack.new.items u }
    ensures len { vec_len stack.new ≤ vec_len stack.old + 1 }
    ensures capacity { vec_capacity stack.new ≡ vec_capacity stack.old }
{
    let noted = marked_twos(marked[u as usize], counts[u as usize]);
    stack.push_reserved(u);
    stack.truncate(stack.len() + noted - 1);
}

// Adds one in `counts` for each vertex of `entries`. Pushes on `stack` those marked in `marked` that then count two.
pub(crate) fn raise_noting(
    counts: &mut [u16],
    stack: &mut Vec<u16>,
    marked: &[bool],
    entries: &[u16],
) -> Result<(), AllocError>
    requires within { All (λ u. u < length counts.old) entries.now }
    requires marks { All (λ u. u < length marked.now) entries.now }
    requires room { (w : ℕ) → slice_index counts.old w + count_by (λ u. u == w) entries.now < 65536 }
    ensures counts { IfOk result (λ _. (w : ℕ) → w < length counts.old → slice_index counts.new w ≡ slice_index counts.old w + count_by (λ u. u == w) entries.now) }
    ensures kept { IfOk result (λ _. (w : ℕ) → Contains stack.old.items w → Contains stack.new.items w) }
    ensures vertices { IfOk result (λ _. (n : ℕ) → All (λ w. w < n) entries.now → All (λ w. w < n) stack.old.items → All (λ w. w < n) stack.new.items) }
    ensures noted { IfOk result (λ _. (w : ℕ) → Contains entries.now w → is_set marked.now w ≡ true → slice_index counts.new w ≡ 2 → Contains stack.new.items w) }
{
    stack.reserve(entries.len())?;
    for u in entries {
        let w = *u;
        counts[w as usize] += 1;
        note(counts, stack, marked, w);
    }
    Ok(())
}

// Returns 1 where one of the two tests is true, and else 0.
#[inline(always)]
fn one_of(first: bool, second: bool) -> usize
    ensures none { first ≡ false → second ≡ false → result ≡ 0 }
    ensures first { first ≡ true → result ≡ 1 }
    ensures second { second ≡ true → result ≡ 1 }
{
    if first { 1 } else { if second { 1 } else { 0 } }
}

// Pushes `u` on `fresh`, which has room for it, if it has no mark in `marked` and none in `gone`.
#[inline(always)]
fn gather(fresh: &mut Vec<u16>, marked: &[bool], gone: &[bool], u: u16)
    requires marks { u < length marked.now }
    requires gone { u < length gone.now }
    requires room { vec_len fresh.old < vec_capacity fresh.old }
    ensures items { fresh.new.items ≡ fresh.old.items ++ filter (is_untouched marked.now gone.now) (u ∷ []) }
    ensures len { vec_len fresh.new ≤ vec_len fresh.old + 1 }
    ensures capacity { vec_capacity fresh.new ≡ vec_capacity fresh.old }
{
    let passed_over = one_of(marked[u as usize], gone[u as usize]);
    fresh.push_reserved(u);
    fresh.truncate(fresh.len() - passed_over);
}

// Subtracts one in `counts` for each vertex of `entries`. Pushes on `stack` those marked that then count two. Leaves in
// `fresh` those that are marked neither in `marked` nor in `gone`. Fails only when out of memory.
pub(crate) fn lower_noting(
    counts: &mut [u16],
    stack: &mut Vec<u16>,
    fresh: &mut Vec<u16>,
    marked: &[bool],
    gone: &[bool],
    entries: &[u16],
) -> Result<(), AllocError>
    requires within { All (λ u. u < length counts.old) entries.now }
    requires marks { All (λ u. u < length marked.now) entries.now }
    requires gone { All (λ u. u < length gone.now) entries.now }
    requires some { (w : ℕ) → w < length counts.old → count_by (λ u. u == w) entries.now ≤ slice_index counts.old w }
    ensures counts { IfOk result (λ _. (w : ℕ) → w < length counts.old → slice_index counts.new w + count_by (λ u. u == w) entries.now ≡ slice_index counts.old w) }
    ensures kept { IfOk result (λ _. (w : ℕ) → Contains stack.old.items w → Contains stack.new.items w) }
    ensures vertices { IfOk result (λ _. (n : ℕ) → All (λ w. w < n) entries.now → All (λ w. w < n) stack.old.items → All (λ w. w < n) stack.new.items) }
    ensures noted { IfOk result (λ _. (w : ℕ) → Contains entries.now w → is_set marked.now w ≡ true → slice_index counts.new w ≡ 2 → Contains stack.new.items w) }
    ensures fresh { IfOk result (λ _. fresh.new.items ≡ filter (is_untouched marked.now gone.now) entries.now) }
{
    stack.reserve(entries.len())?;
    fresh.clear();
    fresh.reserve(entries.len())?;
    for u in entries {
        let w = *u;
        counts[w as usize] -= 1;
        note(counts, stack, marked, w);
        gather(fresh, marked, gone, w);
    }
    Ok(())
}

// Returns the entry after `u`, cyclically, in `list`, which has `u` and no repeats.
pub(crate) fn entry_behind(list: &[u16], u: u16) -> u16
    requires distinct { AllPairs ◌≢◌ list.now }
    requires some { Contains list.now u }
    ensures { result ≡ entry_after u list.now }
{
    for i in 1..list.len() {
        if list[i - 1] == u {
            return list[i];
        }
    }
    list[0]
}

// Returns the vertices of `taken` in reversed order.
pub(crate) fn reversed_vertices(alloc: Global, taken: &[u16]) -> Result<Vec<VertexId>, AllocError>
    ensures { IfOk result (λ at. map (λ v. v.0) at.items ≡ reverse taken.now) }
{
    let mut at = Vec::with_capacity(alloc, taken.len())?;
    for v in taken.iter().rev() {
        at.push_reserved(VertexId(*v));
    }
    Ok(at)
}

// Returns `table` with `n` items, whatever they are, in its old memory. Those that it lacks become `item`.
pub(crate) fn resized<T: Copy>(table: Vec<T>, n: usize, item: T) -> Result<Vec<T>, AllocError>
    ensures { IfOk result (λ made. length made.items ≡ n) }
{
    let mut table = table;
    table.resize(n, item)?;
    Ok(table)
}

// Writes to `ranks` the inverse of `at`, which has all vertices once: for each vertex its index there.
fn write_places(ranks: &mut [u32], at: &[VertexId])
    requires count { length ranks.old ≡ length at.now }
    requires few { length at.now < 4096 }
    requires within { All (λ v. v < length at.now) (map (λ v. v.0) at.now) }
    requires distinct { AllPairs ◌≢◌ (map (λ v. v.0) at.now) }
    ensures { (i : ℕ) → i < length at.now → slice_index ranks.new (slice_index (map (λ v. v.0) at.now) i) ≡ i }
{
    for (i, v) in at.iter().enumerate() {
        ranks[v.0 as usize] = i as u32;
    }
}

// Returns for each vertex its index in `at`, which has all of them once, in the memory of `spent`.
#[inline(always)]
pub(crate) fn ranks_of(spent: Counts, at: &[VertexId]) -> Result<Counts, AllocError>
    requires few { length at.now < 4096 }
    requires within { All (λ v. v < length at.now) (map (λ v. v.0) at.now) }
    requires distinct { AllPairs ◌≢◌ (map (λ v. v.0) at.now) }
    ensures { IfOk result (λ rank. IsRankOf rank (map (λ v. v.0) at.now)) }
{
    let mut ranks = resized(spent.into_vec(), at.len(), 0)?;
    write_places(&mut ranks, at);
    Ok(Counts::from_vec(ranks))
}

/// Appends `first`, `second` and `third` to `taken`. It fails only when out of memory.
pub fn push_three(
    taken: &mut Vec<u16>,
    first: u16,
    second: u16,
    third: u16,
) -> Result<(), AllocError>
    ensures { IfOk result (λ _. taken.new.items ≡ taken.old.items ++ first ∷ second ∷ third ∷ []) }
{
    taken.push(first)?;
    taken.push(second)?;
    taken.push(third)?;
    Ok(())
}
