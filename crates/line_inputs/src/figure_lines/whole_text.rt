//! Figures read from a text that is all in memory, one at an offset.
ghost use Rattle.std.specs.Prelude.{◌≡◌, ◌≤◌, length};
ghost use Rattle.figure_text.specs.Laws.{IsAnswer};
ghost use Rattle.line_inputs.specs.FigureLinesProgress.{IsAtLine, fault_at, end_fault as end_fault_by};

use crate::figure_lines::begun_figure::Begun;
use crate::figure_lines::closed_line::{After, ClosedLine};
use crate::figure_lines::ending::Ending;
use figure_text::{Item, TextFault, next_line};
use std::alloc::Global;

// Converts the ending at a closed line that is bad or past a limit into a fault of the text.
fn fault_of(ending: Ending) -> TextFault
    requires { IsAtLine ending }
    ensures { result ≡ fault_at ending }
{
    match ending {
        Ending::Well => unreachable!(),
        Ending::BadLine(line) => TextFault::BadLine(line),
        Ending::Limit(line) => TextFault::Limit(line),
        Ending::EndInFigure(_) => unreachable!(),
        Ending::TooLong => unreachable!(),
    }
}

// Returns the fault of a text that ends inside the figure `begun`, or in the line number `line` outside a figure.
fn end_fault(begun: Option<Begun>, line: u32) -> TextFault
    ensures { result ≡ end_fault_by begun line }
{
    match begun {
        Some(begun) => TextFault::EndInFigure(begun.first),
        None => TextFault::BadLine(line),
    }
}

/// Returns the item at offset `at` of the text `bytes`: a figure, a note (a line of another job), or the end. `at` is
/// at most the length, and begins line number `line`, from 1 to 16777217.
///
/// Each line is judged as it is closed. A closed line of another shape than the one that is due is a `BadLine`, and so
/// is a line outside a figure that is not closed. A line of the due shape with a number outside its range is a `Limit`.
/// Where the text ends inside a figure, the answer is `EndInFigure`.
pub fn read_figure(alloc: Global, bytes: &[u8], at: usize, line: u32) -> Result<Item, TextFault>
    requires within { at ≤ length bytes.now }
    requires few { line ≤ 16777217 }
    ensures { IsAnswer bytes.now at line result }
{
    if at == bytes.len() {
        return Ok(Item::End);
    }
    let mut found = Vec::new(alloc);
    let mut begun = None;
    let mut next = at;
    let mut number = line;
    while let Some((text, behind)) = next_line(bytes, next) {
        let closed = ClosedLine {
            alloc,
            number,
            text,
        };
        match closed.after(&mut found, begun) {
            Ok(After::Goes(Some(figure))) => begun = Some(figure),
            Ok(After::Goes(None)) => return Ok(Item::Note(behind, number + 1)),
            Ok(After::Whole(held)) => {
                return Ok(Item::Drawn(held.into_inner(), behind, number + 1));
            }
            Ok(After::Bad(ending)) => return Err(fault_of(ending)),
            Err(_) => return Err(TextFault::NoMemory),
        }
        next = behind;
        number += 1;
    }
    Err(end_fault(begun, line))
}
