//! Renumbers a witness of a contracted graph by the numbers that its vertices had before.
ghost use Rattle.std.specs.Prelude.{◌≡◌, ◌<◌, ◌≤◌, ℕ, true, length, map, IfOk};
ghost use Rattle.std.specs.List.{range_with_len};
ghost use Rattle.graphs.specs.Graphs.{has_edge};
ghost use Rattle.kuratowski.specs.Witnesses.{IsWitness};
ghost use Rattle.embed_witnesses.specs.ContractedEdges.{contraction};
ghost use Rattle.embed_witnesses.specs.Merged.{merged, old_number as number_before};

use crate::renamed_witnesses::renamed;
use graphs::Graph;
use kuratowski::Witness;
use map_lists::Ends;
use std::alloc::{AllocError, Global};

/// Returns `small`, a witness of the graph with the edge `e` contracted, with the numbers that its vertices had before.
/// It is one of the graph in which the lesser end has the neighbours of both and the greater none. It fails only when
/// out of memory.
pub fn on_old_numbers(
    alloc: Global,
    graph: &Graph,
    e: Ends,
    small: &Witness,
) -> Result<Witness, AllocError>
    requires edge { has_edge graph.now e.a.0 e.b.0 ≡ true }
    requires accepted { IsWitness (contraction graph.now e.a.0 e.b.0) small.now.kind small.now.branch small.now.paths }
    ensures { IfOk result (λ new. IsWitness (merged graph.now e.a.0 e.b.0) new.kind new.branch new.paths) }
{
    let table = old_numbers(alloc, graph.n(), e.b.0)?;
    renamed(alloc, small, &table)
}

// Returns for each of `n` vertices its number before `b` left and later numbers fell by one; the last vertex gets `b`.
fn old_numbers(alloc: Global, n: u16, b: u16) -> Result<Vec<u16>, AllocError>
    requires { n ≤ 255 }
    ensures { IfOk result (λ table. table.items ≡ map (number_before n b) (range_with_len 0 n)) }
{
    let mut table = Vec::new(alloc);
    for v in 0..n {
        table.push(old_number(n, b, v))?;
    }
    Ok(table)
}

// Returns the old number of vertex `v` of the contracted graph, where the last of `n` numbers stands for `b`.
fn old_number(n: u16, b: u16, v: u16) -> u16
    requires { v < 255 }
    ensures { result ≡ number_before n b v }
{
    if v < b {
        v
    } else if v + 1 < n {
        v + 1
    } else {
        b
    }
}
