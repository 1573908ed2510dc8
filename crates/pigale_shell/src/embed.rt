//! The job `embed` over graph6 lines, as a job of the main loop.
ghost use Rattle.std.specs.Prelude.{◌≡◌, ◌+◌, IfOk};
ghost use Rattle.pg_io.specs.Io.{TakesAtMost};
ghost use Rattle.record_runs.specs.Texts.{input_limit};
ghost use Rattle.record_runs.specs.Outcome.{ports, Outcome as RunOutcome, Counts};
ghost use Rattle.record_runs.specs.Parts.{part_answers};
ghost use Rattle.line_inputs.specs.GraphLinesFormat.{graph_lines, ended_well, ending_behind};
ghost use Rattle.pigale_shell.specs.EmbedText.{embed_answers, embed_last_line as last_line_of};

use super::form_printer::{FormPrinter, line_in};
use super::method::GraphRecord;
use super::output_lines::{end_line, stop_line};
use super::record_answers::refusal_line_in_form;
use embed_graph::embed_figures::Embedder;
use graphs::Graph;
use line_inputs::graph_lines::{Ending, GraphReader};
use pg_io::{Sink, Source};
use pigale_words::Form;
use record_runs::{Ended, Job as RecordJob, Part, PartJob, RunEnd, run_counted, run_records};
use refusals::Refusal;
use std::alloc::{AllocError, Global};

// Returns the last line of a run over graphs: `end` with the counts, or `stop` with the number of the bad line, if any.
fn embed_last_line(
    alloc: Global,
    records: u32,
    refused: u32,
    ending: Ending,
) -> Result<Vec<u8>, AllocError>
    ensures { IfOk result (λ line. line.items ≡ last_line_of records refused ending) }
{
    match ending {
        Ending::Well => end_line(alloc, records, refused),
        Ending::BadLine(k) => stop_line(alloc, b"stop BadLine", k as usize),
        Ending::Limit(k) => stop_line(alloc, b"stop Limit", k as usize),
        Ending::TooLong => Vec::from_slice(alloc, b"stop TooLong\n"),
    }
}

/// The job `embed`, as text or SVG. It embeds, draws and prints graphs, and keeps its memory from graph to graph.
#[derive(Drop)]
pub struct EmbedJob {
    alloc: Global,
    form: Form,
    embedder: Embedder,
    printer: FormPrinter,
}

impl EmbedJob {
    /// Makes the job, before the first graph. It takes no memory.
    pub fn new(alloc: Global, form: Form) -> EmbedJob
        ensures { result.form ≡ form }
    {
        EmbedJob {
            alloc,
            form,
            embedder: Embedder::new(alloc),
            printer: FormPrinter::new(alloc),
        }
    }
}

impl RecordJob<GraphReader> for EmbedJob {
    type Kind = Form;

    ghost kind = { λ job. job.form };

    ghost answers = { embed_answers };

    // Appends to `out` the block of `given`, graph `number`: map and drawing, a Kuratowski witness, or the line that
    // refuses fewer than 3 vertices. Returns whether it was served. It fails only when out of memory.
    fn answer(
        &mut self,
        number: u32,
        given: &Graph,
        out: &mut Vec<u8>,
    ) -> Result<bool, AllocError> {
        let n = given.n();
        if n < 3 {
            let line = refusal_line_in_form(self.alloc, self.form, number, Refusal::Small(n))?;
            out.extend_from_slice(&line)?;
            return Ok(false);
        }
        let record = GraphRecord {
            form: self.form,
            number,
            graph: given,
        };
        let figure = self.embedder.figure(given)?;
        self.printer.print_embedded(&record, &figure, out)?;
        self.embedder.keep(figure);
        Ok(true)
    }

    // Returns the last line: the counts `records` and `refused`, or the bad ending `end`, as text or SVG comment.
    fn last_line(
        &self,
        alloc: Global,
        records: u32,
        refused: u32,
        end: &Ending,
    ) -> Result<Vec<u8>, AllocError> {
        let line = embed_last_line(alloc, records, refused, *end)?;
        line_in(alloc, self.form, line)
    }
}

/// Runs the job `embed` over the graph6 lines of `src`, and writes to `out` in `form`. Returns how the run ended. Its
/// tables for small graphs are on the stack: if it were inlined, they would be cleared for each job.
#[inline(never)]
pub(crate) fn run_graphs<S: Source, K: Sink>(
    alloc: Global,
    form: Form,
    src: &mut S,
    out: &mut K,
) -> RunEnd
    ensures outcome { RunOutcome graph_lines (embed_answers form)
        (ports (S.left src.old) (S.faults src.old) (K.written out.old) (K.faults out.old))
        (ports (S.left src.new) (S.faults src.new) (K.written out.new) (K.faults out.new)) result }
    ensures limit { TakesAtMost (input_limit + 1) (S.left src.old) (S.left src.new) }
{
    let mut job = EmbedJob::new(alloc, form);
    run_records(alloc, GraphReader::new(alloc), &mut job, src, out)
}

/// Runs the job `embed` over `part` of an input of graph6 lines, the bytes of `src`, and writes to `out` in `form`.
/// Returns how the run ended, and what it counted.
#[inline(never)]
pub(crate) fn run_graph_part<S: Source, K: Sink>(
    alloc: Global,
    form: Form,
    part: Part,
    src: &mut S,
    out: &mut K,
) -> Ended
    ensures outcome { RunOutcome graph_lines (part_answers ended_well ending_behind (embed_answers form) part)
        (ports (S.left src.old) (S.faults src.old) (K.written out.old) (K.faults out.old))
        (ports (S.left src.new) (S.faults src.new) (K.written out.new) (K.faults out.new)) result.end }
    ensures counts { Counts graph_lines (part_answers ended_well ending_behind (embed_answers form) part) (S.left src.old)
        result.records result.refused result.end }
    ensures limit { TakesAtMost (input_limit + 1) (S.left src.old) (S.left src.new) }
{
    let mut embed = EmbedJob::new(alloc, form);
    let mut job = PartJob {
        job: &mut embed,
        part,
    };
    run_counted(alloc, GraphReader::new(alloc), &mut job, src, out)
}
