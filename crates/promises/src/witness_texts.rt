//! Promised contracts of witnesses as text and as pictures, and of headers of graph6.
ghost use Rattle.std.specs.Prelude.{◌≡◌, ◌+◌, ◌++◌, List, ℕ, ◌<◌, OnOk, OnErr};
ghost use Rattle.figure_text.specs.Text.{witness_text};
ghost use Rattle.graph6_text.specs.Header.{header_length};
ghost use Rattle.graph6_text.specs.Lines.{IsLine as IsGraphLine};
ghost use Rattle.svg_out.specs.Svg.{IsWitnessSvg};

use graphs::Graph;
use kuratowski::Witness;
use std::alloc::{AllocError, Global};

/// Returns how many of the first of `bytes` are a header of graph6, with the byte 10 after it.
pub fn after_graph_header(bytes: &[u8]) -> usize
    ensures { result ≡ header_length bytes.now }
{
    graph6_text::after_graph_header(bytes)
}

/// Appends the text of `witness`, with the line of `graph`, to `out`.
pub fn print_witness(
    alloc: Global,
    number: u32,
    graph: &Graph,
    witness: &Witness,
    out: &mut Vec<u8>,
) -> Result<(), AllocError>
    ensures ok { OnOk result ((line : List ℕ) × IsGraphLine line graph.now
        × (out.new.items ≡ out.old.items ++ witness_text number line witness.now)) }
    ensures err { OnErr result (out.new.items ≡ out.old.items) }
{
    figure_text::print_witness(alloc, number, graph, witness, out)
}

/// Appends the picture of `witness` to `out`: its text as a comment.
pub fn svg_witness(
    alloc: Global,
    number: u32,
    graph: &Graph,
    witness: &Witness,
    out: &mut Vec<u8>,
) -> Result<(), AllocError>
    ensures ok { OnOk result ((svg : List ℕ) × IsWitnessSvg number graph.now witness.now svg × (out.new.items ≡ out.old.items ++ svg)) }
    ensures err { OnErr result (out.new.items ≡ out.old.items) }
{
    svg_out::svg_witness(alloc, number, graph, witness, out)
}
