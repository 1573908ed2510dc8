//! Answers test rows on Kuratowski witnesses: checked, and lifted from a contracted graph.
ghost use Rattle.std.specs.Prelude.{◌≡◌, true};
ghost use Rattle.graphs.specs.Graphs.{has_edge};

use crate::bare_graphs::edge_of;
use embed_witnesses::contracted_graphs::contract;
use embed_witnesses::lifted_witnesses::lift;
use graphs::Graph;
use kuratowski::{Kind, Witness, WitnessVerdict, check_witness};
use map_lists::Ends;
use row_texts::fault_texts::tell_no_memory;
use row_texts::reply::Reply;
use row_texts::rows::Row;
use row_texts::witnesses::witness_of;
use std::alloc::{AllocError, Global};

/// Returns the name of `kind`.
pub fn name_of(kind: Kind) -> &'static str {
    match kind {
        Kind::K5 => "K5",
        Kind::K33 => "K33",
    }
}

// Writes the verdict on `witness` for `graph`.
fn put_verdict(graph: &Graph, witness: &Witness, out: &mut Reply) {
    match check_witness(graph, witness) {
        WitnessVerdict::BadShape => out.put("BadShape"),
        WitnessVerdict::BadBranch(i) => out.put_one("BadBranch", i as u64),
        WitnessVerdict::NotEdge(p, i) => {
            out.put_one("NotEdge", p as u64);
            out.put_one("", i as u64);
        }
        WitnessVerdict::Shared(p, q, v) => {
            out.put_one("Shared", p as u64);
            out.put_one("", q as u64);
            out.put_one("", u64::from(v.0));
        }
        WitnessVerdict::Yes => out.put("Yes"),
    }
}

// Returns the witness of `graph` that is lifted from `witness`, if that is one of the graph with edge `e` contracted.
fn lifted(
    alloc: Global,
    graph: &Graph,
    e: Ends,
    witness: &Witness,
) -> Result<Option<Witness>, AllocError>
    requires { has_edge graph.now e.a.0 e.b.0 ≡ true }
{
    let small = contract(alloc, graph, e)?;
    match check_witness(&small, witness) {
        WitnessVerdict::Yes => Ok(Some(lift(alloc, graph, e, witness)?)),
        _ => Ok(None),
    }
}

// Writes the kind of `witness`, the numbers of its paths and of their vertices, and the verdict on it.
fn put_told(graph: &Graph, witness: &Witness, out: &mut Reply) {
    out.put(name_of(witness.kind));
    out.put_one(",", witness.paths.len() as u64);
    out.put_one(" paths of", witness.paths.total() as u64);
    out.put(" vertices, ");
    put_verdict(graph, witness, out);
}

// Writes the witness lifted from `witness` along edge `e`, as `put_told` does.
fn put_lifted(graph: &Graph, e: Ends, witness: &Witness, out: &mut Reply)
    requires { has_edge graph.now e.a.0 e.b.0 ≡ true }
{
    match lifted(out.alloc, graph, e, witness) {
        Ok(Some(new)) => put_told(graph, &new, out),
        Ok(None) => {}
        Err(_) => tell_no_memory(out),
    }
}

/// Answers a row on witnesses.
pub fn answer(row: &Row<'_>, graph: &Graph, out: &mut Reply) {
    if row.call == "check" {
        put_verdict(graph, &witness_of(out.alloc, row.arg(1), row.arg(2)), out);
    } else if let Some(e) = edge_of(graph, row.arg(1)) {
        let witness = witness_of(out.alloc, row.arg(2), row.arg(3));
        put_lifted(graph, e, &witness, out);
    }
}
