//! The least separating pair of vertices of rotation lists.
ghost use Rattle.std.specs.Prelude.{◌≡◌, ◌<◌, ◌≤◌, ℕ, true, false, length, slice_index_or, MatchOption, IfOk};
ghost use Rattle.map_lists.specs.Lists.{Lists};
ghost use Rattle.graph_search.specs.Forests.{IsAdjacency};
ghost use Rattle.graph_search.specs.Cuts.{IsSeparatingPair, IsLeastPair};
ghost use Rattle.graph_search.specs.Flags.{AreCutFlags};
ghost use Rattle.graph_search.specs.Without.{IsWithoutVertex};

use crate::list_cuts::cut_vertex_flags::cut_flags;
use crate::list_cuts::least_cut_vertex::first_set;
use crate::list_cuts::lists_without_vertex::lists_without;
use map_lists::Rotations;
use std::alloc::{AllocError, Global};

// Returns for each vertex whether it is a cut vertex of `lists` without `v`. It fails only when out of memory.
fn cuts_without(alloc: Global, lists: &Rotations, v: u16) -> Result<Vec<bool>, AllocError>
    requires adjacency { IsAdjacency lists.now }
    ensures count { IfOk result (λ cuts. length cuts.items ≡ length lists.now) }
    ensures cuts { IfOk result (λ cuts. (rest : Lists) × IsWithoutVertex lists.now rest v × AreCutFlags rest cuts.items) }
{
    let rest = lists_without(alloc, lists, v)?;
    let cuts = cut_flags(alloc, &rest)?;
    Ok(cuts)
}

// Returns the least vertex greater than `u` with which `u` is a separating pair of `lists`, or None. `flags` says
// which vertices are cut vertices. It fails only when out of memory.
fn partner(
    alloc: Global,
    lists: &Rotations,
    flags: &[bool],
    u: u16,
) -> Result<Option<u16>, AllocError>
    requires adjacency { IsAdjacency lists.now }
    requires flags { AreCutFlags lists.now flags.now }
    requires vertex { u < length lists.now }
    ensures { IfOk result (λ found. MatchOption found ((v : ℕ) → ¬ IsSeparatingPair lists.now u v) (λ v. IsSeparatingPair lists.now u v × ((w : ℕ) → IsSeparatingPair lists.now u w → v ≤ w))) }
{
    if flags[u as usize] {
        // all but two vertices are partners of a cut vertex, so few are tried
        for v in u as usize + 1..lists.len() {
            if flags[v] {
                return Ok(Some(v as u16));
            }
            let cuts = cuts_without(alloc, lists, v as u16)?;
            if cuts[u as usize] {
                return Ok(Some(v as u16));
            }
        }
        return Ok(None);
    }
    lists.facts();
    let cuts = cuts_without(alloc, lists, u)?;
    match first_set(&cuts, u as usize + 1) {
        Some(v) => Ok(Some(v as u16)),
        None => Ok(None),
    }
}

/// Returns the least separating pair of lists in which adjacency goes both ways, by first, then second vertex, or None
/// exactly if there is none. Searches the lists without each vertex in turn, and fails only when out of memory.
pub fn list_separating_pair(
    alloc: Global,
    lists: &Rotations,
) -> Result<Option<(u16, u16)>, AllocError>
    requires adjacency { IsAdjacency lists.now }
    ensures { IfOk result (λ found. MatchOption found ((u v : ℕ) → ¬ IsSeparatingPair lists.now u v) (λ p. IsLeastPair lists.now p.0 p.1)) }
{
    let flags = cut_flags(alloc, lists)?;
    for u in 0..lists.len() {
        match partner(alloc, lists, &flags, u as u16)? {
            Some(v) => return Ok(Some((u as u16, v))),
            None => {}
        }
    }
    Ok(None)
}
