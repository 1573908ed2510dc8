//! Kuratowski witnesses in SVG, as text in a comment.
ghost use Rattle.std.specs.Prelude.{◌≡◌, ◌++◌, List, ℕ, OnOk, OnErr, IfOk};
ghost use Rattle.svg_out.specs.Svg.{IsWitnessSvg};

use figure_text::print_witness;
use graphs::Graph;
use kuratowski::Witness;
use std::alloc::{AllocError, Global};

// Returns the text of `witness` as figure `number`, with the graph6 line of `graph`, as an SVG comment.
fn comment(
    alloc: Global,
    number: u32,
    graph: &Graph,
    witness: &Witness,
) -> Result<Vec<u8>, AllocError>
    ensures { IfOk result (λ text. IsWitnessSvg number graph.now witness.now text.items) }
{
    let mut text = Vec::new(alloc);
    text.extend_from_slice(b"<!--\n")?;
    print_witness(alloc, number, graph, witness, &mut text)?;
    text.extend_from_slice(b"-->\n")?;
    Ok(text)
}

/// Appends the text of `witness` for `graph`, as figure `number`, to `out` as an SVG comment, not a picture. No byte of
/// the text is a minus, so the comment ends at its last line. When memory runs out `out` is unchanged.
pub fn svg_witness(
    alloc: Global,
    number: u32,
    graph: &Graph,
    witness: &Witness,
    out: &mut Vec<u8>,
) -> Result<(), AllocError>
    ensures ok { OnOk result ((svg : List ℕ) × IsWitnessSvg number graph.now witness.now svg × (out.new.items ≡ out.old.items ++ svg)) }
    ensures err { OnErr result (out.new.items ≡ out.old.items) }
{
    let text = comment(alloc, number, graph, witness)?;
    out.extend_from_slice(&text)
}
