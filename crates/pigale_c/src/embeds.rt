//! The call for C that embeds a graph: a plane map with its drawing, or a Kuratowski witness, in arrays.
ghost use Rattle.std.specs.Prelude.{◌≤◌, IfOk, IfErr};
ghost use Rattle.embed_graph.specs.Figures.{IsEmbedFigure};
ghost use Rattle.pigale_c.specs.EdgeFailures.{FailsOnEdges};
ghost use Rattle.pigale_c.specs.Embedded.{IsGivenGraph, IsSmall, IsEmbedded, OfGraph};
ghost use Rattle.pigale_c.specs.Numbers.{Reports, outcome_of};

use crate::edges::{EdgeEnds, GraphArrays, graph_of};
use crate::map_arrays::{put_lists, put_points};
use crate::outcome::{Failure, Numbers, Outcome, report};
use crate::witness_paths::put_witness;
use embed_graph::embed_figures::{EmbedFigure, Embedder};
use refusals::Refusal;
use std::alloc::Global;

// Returns the map and drawing of the graph `given` by `embedder`, or its witness, if `x` and `y` have the length `n`; else why not.
fn figure_of(
    embedder: &mut Embedder,
    given: &GraphArrays<'_>,
    x: &[i32],
    y: &[i32],
) -> Result<EmbedFigure, Failure>
    ensures given { IfOk result (λ figure. IsGivenGraph given.now.n given.now.edges.now x.now y.now) }
    ensures enough { IfOk result (λ figure. 3 ≤ given.now.n) }
    ensures figure { IfOk result (λ figure. OfGraph given.now.n given.now.edges.now (λ graph. IsEmbedFigure graph figure)) }
    ensures failed { IfErr result (FailsOnEdges (IsGivenGraph given.now.n given.now.edges.now x.now y.now) given.now.n given.now.edges.now (IsSmall given.now.n)) }
{
    let n = given.n;
    if x.len() != n || y.len() != n {
        return Err(Failure::BadArgument);
    }
    let graph = graph_of(given)?;
    if n < 3 {
        return Err(Failure::Refused(Refusal::Small(n as u16)));
    }
    let figure = embedder.figure(&graph)?;
    Ok(figure)
}

/// Writes a plane map of the graph `given`, which `embedder` finds, to the fronts of `ends` and `neighbours`, and its
/// drawing to `x` and `y`, or the paths of a witness to those fronts. Returns `Served`, `NotPlanar`, or why neither, and
/// then leaves all four as they were.
pub(crate) fn put_figure(
    embedder: &mut Embedder,
    given: &GraphArrays<'_>,
    ends: &mut [usize],
    neighbours: &mut [u16],
    x: &mut [i32],
    y: &mut [i32],
) -> Result<Outcome, Failure>
    ensures { IsEmbedded given.now.n given.now.edges.now ends.old neighbours.old x.old y.old ends.new neighbours.new x.new y.new (outcome_of result) }
{
    let found = figure_of(embedder, given, x, y)?;
    match found {
        EmbedFigure::Drawn(lists, figure) => {
            if !put_lists(lists.ends(), lists.entries(), ends, neighbours) {
                return Err(Failure::BadArgument);
            }
            put_points(figure.points.as_slice(), x, y);
            embedder.keep(EmbedFigure::Drawn(lists, figure));
            Ok(Outcome::Served)
        }
        EmbedFigure::NotPlanar(witness) => put_witness(given.alloc, &witness, ends, neighbours),
    }
}

/// Writes a plane map of the graph of `n` vertices and `edges` to `ends` and `neighbours`, which have room for it. Its
/// drawing, in the grid n - 2 by n - 2, goes to `x` and `y` of length n. Where the graph is not planar, the paths of a
/// witness go to `ends` and `neighbours`. Returns a status, and writes the numbers beside it to `found`.
#[unsafe(no_mangle)]
pub extern "C" fn pigale_embed(
    alloc: Global,
    n: u16,
    edges: &[EdgeEnds],
    ends: &mut [usize],
    neighbours: &mut [u16],
    x: &mut [i32],
    y: &mut [i32],
    found: &mut Numbers,
) -> u8
    ensures { Reports (IsEmbedded n edges.now ends.old neighbours.old x.old y.old ends.new neighbours.new x.new y.new) result found.new }
{
    let given = GraphArrays {
        alloc,
        n: n as usize,
        edges,
    };
    let mut embedder = Embedder::new(alloc);
    let call = put_figure(&mut embedder, &given, ends, neighbours, x, y);
    report(call, found)
}
