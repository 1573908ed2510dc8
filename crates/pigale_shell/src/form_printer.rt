//! Output as text or as SVG: the printer of figures in either, and lines that belong to no figure.
ghost use Rattle.std.specs.Prelude.{◌≡◌, ◌++◌, List, ℕ, length, OnOk, OnErr, IfOk};
ghost use Rattle.map_theory.specs.Maps.{IsSimpleMap};
ghost use Rattle.svg_out.specs.Svg.{HasColumns};
ghost use Rattle.pigale_shell.specs.Forms.{commented as comment_of, line_in as line_by, grid_in, bars_in, rects_in};
ghost use Rattle.figure_text.specs.Text.{HasRects};
ghost use Rattle.embed_graph.specs.Figures.{IsEmbedFigure};
ghost use Rattle.pigale_shell.specs.Blocks.{Appends};
ghost use Rattle.pigale_shell.specs.EmbedText.{WritesWitness, IsGraphText};

use super::method::{GraphRecord, MapRecord};
use embed_graph::embed_figures::EmbedFigure;
use figure_text::{GridJob, Printer};
use half_edges::Rotations;
use kuratowski::Witness;
use pg_plane::{BarFigure, Points, RectFigure};
use pigale_words::Form;
use std::alloc::{AllocError, Global};
use svg_out::{svg_bars, svg_grid, svg_rects, svg_witness};

// Returns `line`, without its last byte (the newline), as an SVG comment line. It fails only when out of memory.
fn commented(alloc: Global, line: &[u8]) -> Result<Vec<u8>, AllocError>
    ensures { IfOk result (λ text. text.items ≡ comment_of line.now) }
{
    let mut text = Vec::from_slice(alloc, b"<!-- ")?;
    text.extend_from_slice(&line[..line.len().saturating_sub(1)])?;
    text.extend_from_slice(b" -->\n")?;
    Ok(text)
}

/// Returns `line`, which belongs to no figure: unchanged where `form` is text, and as a comment where it is SVG.
pub(crate) fn line_in(alloc: Global, form: Form, line: Vec<u8>) -> Result<Vec<u8>, AllocError>
    ensures { IfOk result (λ text. text.items ≡ line_by form line.items) }
{
    match form {
        Form::Text => Ok(line),
        Form::Svg => commented(alloc, &line),
    }
}

/// Prints drawings as text or SVG, one after another, and keeps its memory for the next.
#[derive(Drop)]
pub struct FormPrinter {
    alloc: Global,
    printer: Printer,
}

impl FormPrinter {
    /// Makes a printer that has printed nothing yet. It takes no memory.
    pub(crate) fn new(alloc: Global) -> FormPrinter {
        FormPrinter {
            alloc,
            printer: Printer::new(alloc),
        }
    }

    /// Appends to `out` the drawing of `given`, a simple map, at `points`, one for each vertex, in the form of `given`.
    /// When memory runs out `out` is unchanged.
    pub(crate) fn print_grid(
        &mut self,
        given: &MapRecord<'_>,
        job: GridJob,
        points: &Points,
        out: &mut Vec<u8>,
    ) -> Result<(), AllocError>
        requires simple { IsSimpleMap given.now.lists.now }
        requires points { length points.now ≡ length given.now.lists.now }
        ensures ok { OnOk result (out.new.items ≡ out.old.items ++ grid_in given.now.form given.now.number job given.now.lists.now points.now) }
        ensures err { OnErr result (out.new.items ≡ out.old.items) }
    {
        match given.form {
            Form::Text => self
                .printer
                .print_grid(given.number, job, given.lists, points, out),
            Form::Svg => svg_grid(self.alloc, given.lists, points, out),
        }
    }

    /// Appends to `out` the visibility drawing of `given`, a simple map, in the form of `given`. `bars` has a bar for
    /// each vertex and a column for each edge. When memory runs out `out` is unchanged.
    pub(crate) fn print_bars(
        &mut self,
        given: &MapRecord<'_>,
        bars: &BarFigure,
        out: &mut Vec<u8>,
    ) -> Result<(), AllocError>
        requires simple { IsSimpleMap given.now.lists.now }
        requires columns { HasColumns given.now.lists.now bars.now }
        ensures ok { OnOk result (out.new.items ≡ out.old.items ++ bars_in given.now.form given.now.number given.now.lists.now bars.now) }
        ensures err { OnErr result (out.new.items ≡ out.old.items) }
    {
        match given.form {
            Form::Text => self
                .printer
                .print_bars(given.number, given.lists, bars, out),
            Form::Svg => svg_bars(self.alloc, given.lists, bars, out),
        }
    }

    /// Appends `rects`, one for each list of `given`, to `out` in `given`'s form. Out of memory leaves `out` unchanged.
    pub(crate) fn print_rects(
        &mut self,
        given: &MapRecord<'_>,
        rects: &RectFigure,
        out: &mut Vec<u8>,
    ) -> Result<(), AllocError>
        requires { HasRects given.now.lists.now rects.now }
        ensures ok { OnOk result (out.new.items ≡ out.old.items ++ rects_in given.now.form given.now.number given.now.lists.now rects.now) }
        ensures err { OnErr result (out.new.items ≡ out.old.items) }
    {
        match given.form {
            Form::Text => self
                .printer
                .print_rects(given.number, given.lists, rects, out),
            Form::Svg => svg_rects(self.alloc, given.lists, rects, out),
        }
    }

    /// Appends `figure`, which was found of the graph `given`, to `out` in the form of `given`: a drawn map of it, or a
    /// witness that it is not planar. When memory runs out `out` is unchanged.
    pub(crate) fn print_embedded(
        &mut self,
        given: &GraphRecord<'_>,
        figure: &EmbedFigure,
        out: &mut Vec<u8>,
    ) -> Result<(), AllocError>
        requires { IsEmbedFigure given.now.graph.now figure.now }
        ensures block { OnOk result (Appends (IsGraphText given.now.form given.now.number given.now.graph.now) out.old.items out.new.items) }
        ensures err { OnErr result (out.new.items ≡ out.old.items) }
    {
        match figure {
            EmbedFigure::Drawn(lists, figure) => {
                let map = MapRecord {
                    form: given.form,
                    number: given.number,
                    lists,
                };
                self.print_grid(&map, GridJob::Schnyder, &figure.points, out)
            }
            EmbedFigure::NotPlanar(witness) => self.print_witness(given, witness, out),
        }
    }

    // Appends `witness`, of the graph `given`, to `out` in the form of `given`. Out of memory leaves `out` unchanged.
    fn print_witness(
        &mut self,
        given: &GraphRecord<'_>,
        witness: &Witness,
        out: &mut Vec<u8>,
    ) -> Result<(), AllocError>
        ensures ok { OnOk result ((text : List ℕ) × WritesWitness given.now.form given.now.number given.now.graph.now witness.now text
            × (out.new.items ≡ out.old.items ++ text)) }
        ensures err { OnErr result (out.new.items ≡ out.old.items) }
    {
        match given.form {
            Form::Text => {
                self.printer
                    .print_witness(given.number, given.graph, witness, out)
            }
            Form::Svg => svg_witness(self.alloc, given.number, given.graph, witness, out),
        }
    }
}
