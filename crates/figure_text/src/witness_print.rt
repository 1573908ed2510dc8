//! Prints a witness as text: its first line with the graph, and the lines of the branches and paths.
ghost use Rattle.std.specs.Prelude.{◌≡◌, ◌+◌, ◌++◌, ◌∷◌, [], List, ℕ, length, flat_map, codes, decimal, ◌<◌, OnOk, OnErr, IfOk};
ghost use Rattle.graph6_text.specs.Lines.{IsLine as IsGraphLine};
ghost use Rattle.figure_text.specs.Text.{kind_word, witness_lines, witness_text};

use crate::print::{Printer, push_next};
use graph6_text::write_line;
use graphs::Graph;
use kuratowski::{Kind, Witness};
use map_lists::VertexId;
use std::alloc::{AllocError, Global};

// Returns the word of `kind` in a first line.
fn word_of(kind: Kind) -> &'static [u8]
    ensures { result.now ≡ kind_word kind }
{
    match kind {
        Kind::K5 => b"K5",
        Kind::K33 => b"K33",
    }
}

// Appends the numbers of `ids` to `out`, from 1 and each after a space.
fn push_ids(out: &mut Vec<u8>, ids: &[VertexId]) -> Result<(), AllocError>
    ensures { OnOk result (out.new.items ≡ out.old.items ++ flat_map (λ (u : VertexId). 32 ∷ decimal (u.0 + 1)) ids.now) }
{
    for k in 0..ids.len() {
        push_next(out, u64::from(ids[k].0) + 1)?;
    }
    Ok(())
}

// Appends to `out` a line that begins with `word` and names the vertices `ids`.
fn push_row(out: &mut Vec<u8>, word: &[u8], ids: &[VertexId]) -> Result<(), AllocError>
    ensures { OnOk result (out.new.items ≡ out.old.items ++ (word.now ++ (flat_map (λ (u : VertexId). 32 ∷ decimal (u.0 + 1)) ids.now ++ 10 ∷ []))) }
{
    out.extend_from_slice(word)?;
    push_ids(out, ids)?;
    out.push(b'\n')?;
    Ok(())
}

// Appends to `out` a line with the branch vertices of `witness`, and a line for each of its paths.
fn push_rows(out: &mut Vec<u8>, witness: &Witness) -> Result<(), AllocError>
    ensures { OnOk result (out.new.items ≡ out.old.items ++ witness_lines witness.now (length witness.now.paths + 1)) }
{
    push_row(out, b"branch", witness.branch.as_slice())?;
    for p in 0..witness.paths.len() {
        push_row(out, b"path", witness.paths.list(p))?;
    }
    Ok(())
}

// Appends to `text` the text of `witness` as figure `number`. The first line holds the graph6 line of `graph`, and the
// others hold the branches and the paths.
pub(crate) fn push_witness(
    text: &mut Vec<u8>,
    number: u32,
    graph: &Graph,
    witness: &Witness,
) -> Result<(), AllocError>
    ensures { OnOk result ((line : List ℕ) × IsGraphLine line graph.now
        × (text.new.items ≡ text.old.items ++ witness_text number line witness.now)) }
{
    text.extend_from_slice(b"figure")?;
    push_next(text, u64::from(number))?;
    text.extend_from_slice(b" witness ")?;
    text.extend_from_slice(word_of(witness.kind))?;
    text.push(b' ')?;
    write_line(graph, text)?;
    text.push(b'\n')?;
    push_rows(text, witness)?;
    Ok(())
}

/// Appends the text of `witness`, as figure `number`, to `out`, with the graph6 line of its `graph` in the first line.
/// When memory runs out `out` is unchanged.
pub fn print_witness(
    alloc: Global,
    number: u32,
    graph: &Graph,
    witness: &Witness,
    out: &mut Vec<u8>,
) -> Result<(), AllocError>
    ensures ok { OnOk result ((line : List ℕ) × IsGraphLine line graph.now
        × (out.new.items ≡ out.old.items ++ witness_text number line witness.now)) }
    ensures err { OnErr result (out.new.items ≡ out.old.items) }
{
    Printer::new(alloc).print_witness(number, graph, witness, out)
}
