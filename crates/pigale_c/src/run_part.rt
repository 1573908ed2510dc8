//! The call for C that runs the program's words over a part of an input in memory.
ghost use Rattle.std.specs.Prelude.{nat_lt};
ghost use Rattle.pigale_c.specs.PartRun.{RunsPart, RunsPartTo};

use crate::map_arrays::put_front;
use crate::ports::{LentSource, TextSink};
use crate::word_split::words_of;
use pigale_shell::{Before, Part, PartEnd, Status, pigale_part};
use std::alloc::{AllocError, Global};

/// How many records of a part were answered, and how many of them were refused.
#[repr(C)]
#[derive(Clone, Copy)]
pub struct Sums {
    pub records: u32,
    pub refused: u32,
}

// How a run over a part ended, and the text that it wrote.
#[derive(Drop)]
struct PartRun {
    end: PartEnd,
    text: Vec<u8>,
}

// Runs the job that `words` name, with single spaces between them, over `input`, which is `part` of a longer one. Returns
// how it ended, and its text.
fn run_part_of_text(alloc: Global, words: &[u8], input: &[u8], part: Part) -> PartRun
    ensures { RunsPart words.now input.now part result.end result.text.items }
{
    match words_of(alloc, words) {
        Ok(words) => {
            let mut source = LentSource { left: input };
            let mut sink = TextSink::new(alloc);
            let end = pigale_part(alloc, &words, part, &mut source, &mut sink);
            PartRun {
                end,
                text: sink.text,
            }
        }
        Err(AllocError) => PartRun {
            end: PartEnd {
                status: Status::NoMemory,
                records: 0,
                refused: 0,
            },
            text: Vec::new(alloc),
        },
    }
}

/// Runs the program's words over a part of an input that is cut at the ends of records, and returns the number of its
/// status. So inputs of any size have the text of one run, in parts.
///
/// `words` are as for `pigale_run`; `gen` is none of them. Before the part stand `records` records, `refused` of them
/// refused, and `place` bytes of planar_code, lines of figures or graphs of graph6: its blocks are numbered on, its last line
/// has the sums, and a bad ending is named by its place in the whole. Where `goes_on` is not 0 more parts come, and a part
/// that ends well has no last line. `text` gets the first bytes of what is written, as many as there is room for,
/// `text_length` the length of the whole, and `sums` the numbers of this part alone. 2 is the status of other words, and
/// then nothing is written; both 5 and 6 say that there was not enough memory.
#[unsafe(no_mangle)]
pub extern "C" fn pigale_run_part(
    alloc: Global,
    words: &[u8],
    input: &[u8],
    records: u32,
    refused: u32,
    place: usize,
    goes_on: u8,
    text: &mut [u8],
    text_length: &mut usize,
    sums: &mut Sums,
) -> u8
    ensures { RunsPartTo words.now input.now
        (record { before = record { records = records; refused = refused; place = place }; goes_on = nat_lt 0 goes_on })
        text.old result sums.new.records sums.new.refused text_length.new text.new }
{
    let before = Before {
        records,
        refused,
        place,
    };
    let part = Part {
        before,
        goes_on: 0 < goes_on,
    };
    let run = run_part_of_text(alloc, words, input, part);
    *text_length = run.text.len();
    put_front(&run.text, text);
    *sums = Sums {
        records: run.end.records,
        refused: run.end.refused,
    };
    run.end.status.number()
}
