//! Longest path lengths and a topological order by Kahn's method: a queue of vertices whose incoming arcs are all used.
ghost use Rattle.std.specs.Prelude.{◌≡◌, ◌+◌, ◌<◌, ◌^◌, ◌==◌, ℕ, [], ◌∷◌, length, slice_index, replicate, All, IfOk};
ghost use Rattle.graph_search.specs.Arcs.{HasArc, IsAcyclic, AreLongest, IsTopological};
ghost use Rattle.graph_search.specs.Progress.{IsRaised, all_into};

use map_lists::ItemLists;
use std::alloc::{AllocError, Global};
use std::mem;

// Raises the path length of vertex `r` in `number` to one more than that of `e`, where it is less.
fn raise(number: &mut [u32], e: u32, r: u32)
    requires e_in { e < length number.old }
    requires r_in { r < length number.old }
    requires room { slice_index number.old e + 1 < 2 ^ 32 }
    ensures { IsRaised number.old number.new e r }
{
    let more = number[e as usize] + 1;
    if number[r as usize] < more {
        number[r as usize] = more;
    }
}

// Uses all arcs: first those from `base`, then those from each vertex without an unused incoming arc. It fills
// `number`, all 0, with the longest path lengths, and counts `waiting`, the arcs into each vertex, down. It appends the
// vertices to `queue`, which holds `base`. Every directed cycle passes through `base`.
fn visit_all(
    arcs: &ItemLists<u32>,
    base: u32,
    number: &mut [u32],
    waiting: &mut [usize],
    queue: &mut Vec<u32>,
) -> Result<(), AllocError>
    requires acyclic { IsAcyclic arcs.now base }
    requires few { length arcs.now < 2 ^ 32 }
    requires numbers { length number.old ≡ length arcs.now }
    requires zeros { (x : ℕ) → slice_index number.old x ≡ 0 }
    requires counters { length waiting.old ≡ length arcs.now }
    requires counted { (r : ℕ) → r < length arcs.now → slice_index waiting.old r ≡ all_into arcs.now r }
    requires queue { queue.old.items ≡ base ∷ [] }
    ensures longest { IfOk result (λ _. AreLongest arcs.now base number.new) }
    ensures order { IfOk result (λ _. IsTopological arcs.now base queue.new.items) }
{
    for head in 0..arcs.len() {
        if queue.len() <= head {
            continue;
        }
        let e = queue[head];
        for r in arcs.list(e as usize) {
            let left = waiting[*r as usize] - 1;
            waiting[*r as usize] = left;
            if *r == base {
                continue;
            }
            raise(number, e, *r);
            if left != 0 {
                continue;
            }
            queue.push(*r)?;
        }
    }
    Ok(())
}

// Adds to the entry of each vertex in `counts`, which is 0, the number of arcs into it.
fn count_arcs(counts: &mut [usize], arcs: &ItemLists<u32>)
    requires size { length counts.old ≡ length arcs.now }
    requires within { (e r : ℕ) → HasArc arcs.now e r → r < length arcs.now }
    requires zeros { (w : ℕ) → slice_index counts.old w ≡ 0 }
    ensures { (r : ℕ) → r < length arcs.now → slice_index counts.new r ≡ all_into arcs.now r }
{
    for r in arcs.entries() {
        counts[*r as usize] += 1;
    }
}

// Makes `table` a list of `n` zeros. It fails only when out of memory.
fn zeros(table: &mut Vec<u32>, n: usize) -> Result<(), AllocError>
    ensures { IfOk result (λ _. table.new.items ≡ replicate n 0) }
{
    table.clear();
    table.resize(n, 0)?;
    Ok(())
}

// Makes `table` hold for each vertex the number of arcs into it. It fails only when out of memory.
fn arcs_into(table: &mut Vec<usize>, arcs: &ItemLists<u32>) -> Result<(), AllocError>
    requires within { (e r : ℕ) → HasArc arcs.now e r → r < length arcs.now }
    ensures count { IfOk result (λ _. length table.new.items ≡ length arcs.now) }
    ensures each { IfOk result (λ _. (r : ℕ) → r < length arcs.now → slice_index table.new.items r ≡ all_into arcs.now r) }
{
    table.clear();
    table.resize(arcs.len(), 0)?;
    count_arcs(table, arcs);
    Ok(())
}

/// The tables of a search for longest paths, which keep their memory from one graph to the next.
#[derive(Drop)]
pub struct PathTables {
    /// For each vertex the length of the longest path to it.
    pub number: Vec<u32>,
    // for each vertex how many arcs to it are not used yet
    waiting: Vec<usize>,
    // the vertices to which no arc is left
    queue: Vec<u32>,
}

impl PathTables {
    /// Returns tables of no graph. They take no memory.
    pub fn new(alloc: Global) -> PathTables {
        PathTables {
            number: Vec::new(alloc),
            waiting: Vec::new(alloc),
            queue: Vec::new(alloc),
        }
    }

    /// Finds for each vertex the length of the longest path from `base` to it; `arcs` has for each vertex the heads of
    /// its arcs. Arcs to `base` do not count; without them no cycle may be left, and each other vertex must have an
    /// incoming arc. It fails only when out of memory. Time and memory are linear in the vertices and arcs.
    pub fn find(
        &mut self,
        alloc: Global,
        arcs: &ItemLists<u32>,
        base: u32,
    ) -> Result<(), AllocError>
        requires acyclic { IsAcyclic arcs.now base }
        requires few { length arcs.now < 2 ^ 32 }
        ensures longest { IfOk result (λ _. AreLongest arcs.now base self.new.number.items) }
        ensures order { IfOk result (λ _. IsTopological arcs.now base self.new.queue.items) }
    {
        arcs_into(&mut self.waiting, arcs)?;
        zeros(&mut self.number, arcs.len())?;
        let mut queue = mem::replace(&mut self.queue, Vec::new(alloc));
        queue.clear();
        queue.push(base)?;
        visit_all(arcs, base, &mut self.number, &mut self.waiting, &mut queue)?;
        self.queue = queue;
        Ok(())
    }
}

/// Returns for each vertex the length of the longest path from `base` to it, like [`PathTables::find`].
pub fn longest_paths(
    alloc: Global,
    arcs: &ItemLists<u32>,
    base: u32,
) -> Result<Vec<u32>, AllocError>
    requires acyclic { IsAcyclic arcs.now base }
    requires few { length arcs.now < 2 ^ 32 }
    ensures { IfOk result (λ number. AreLongest arcs.now base number.items) }
{
    let mut tables = PathTables::new(alloc);
    tables.find(alloc, arcs, base)?;
    Ok(tables.number)
}

/// Returns all vertices in an order in which each but `base` stands after those from which arcs lead to it. `base` is
/// the first. It fails only when out of memory. Time and memory are linear in the vertices and arcs.
pub fn topological_order(
    alloc: Global,
    arcs: &ItemLists<u32>,
    base: u32,
) -> Result<Vec<u32>, AllocError>
    requires acyclic { IsAcyclic arcs.now base }
    requires few { length arcs.now < 2 ^ 32 }
    ensures { IfOk result (λ order. IsTopological arcs.now base order.items) }
{
    let mut tables = PathTables::new(alloc);
    tables.find(alloc, arcs, base)?;
    Ok(tables.queue)
}
