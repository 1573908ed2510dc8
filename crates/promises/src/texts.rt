//! Promised contracts of figures as text and as pictures, and of the words of a command.
ghost use Rattle.std.specs.Prelude.{◌≡◌, ◌≤◌, length, ◌+◌, ◌++◌, ℕ, List, ◌<◌, OnOk, OnErr, map, IfOk, MatchResult, Some, string_bytes};
ghost use Rattle.figure_text.specs.Laws.{IsAnswer};
ghost use Rattle.figure_text.specs.Text.{IsText, IsWhole};
ghost use Rattle.pigale_words.specs.Jobs.{HasSize};
ghost use Rattle.pigale_words.specs.Status.{RefusesWords};
ghost use Rattle.pigale_words.specs.Words.{job_of};
ghost use Rattle.svg_out.specs.Svg.{IsSvg, IsDrawn};

use figure_text::{Figure, Item, TextFault};
use pigale_words::{Job, WordFault};
use std::alloc::{AllocError, Global};

/// Reads the figure or the note at offset `at` of `bytes`, or names the fault and its line.
pub fn read_figure(alloc: Global, bytes: &[u8], at: usize, line: u32) -> Result<Item, TextFault>
    requires within { at ≤ length bytes.now }
    requires few { line ≤ 16777217 }
    ensures { IsAnswer bytes.now at line result }
{
    line_inputs::read_figure(alloc, bytes, at, line)
}

/// Appends the text of figure `number` to `out`.
pub fn print_figure(
    alloc: Global,
    number: u32,
    fig: &Figure,
    out: &mut Vec<u8>,
) -> Result<(), AllocError>
    requires { IsWhole fig.now }
    ensures ok { OnOk result ((text : List ℕ) × IsText number fig.now text × (out.new.items ≡ out.old.items ++ text)) }
    ensures err { OnErr result (out.new.items ≡ out.old.items) }
{
    figure_text::print_figure(alloc, number, fig, out)
}

/// Appends the picture of figure `number` to `out`.
pub fn svg(alloc: Global, number: u32, figure: &Figure, out: &mut Vec<u8>) -> Result<(), AllocError>
    requires { IsDrawn figure.now }
    ensures ok { OnOk result ((svg : List ℕ) × IsSvg number figure.now svg × (out.new.items ≡ out.old.items ++ svg)) }
    ensures err { OnErr result (out.new.items ≡ out.old.items) }
{
    svg_out::svg(alloc, number, figure, out)
}

/// Returns the job of `words`, or refuses them.
pub fn words_to_job(alloc: Global, words: &[String]) -> Result<Job, WordFault>
    ensures job { MatchResult result
        (λ job. job_of (map string_bytes words.now) ≡ Some job)
        (RefusesWords (job_of (map string_bytes words.now))) }
    ensures sized { IfOk result HasSize }
{
    pigale_words::words_to_job(alloc, words)
}
