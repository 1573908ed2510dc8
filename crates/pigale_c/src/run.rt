//! The call for C that runs the program's words over an input in memory.
ghost use Rattle.pigale_c.specs.Run.{RunsText, RunsTo};

use crate::map_arrays::put_front;
use crate::ports::{LentSource, TextSink};
use crate::word_split::words_of;
use pigale_shell::{Status, pigale};
use std::alloc::{AllocError, Global};

// The status of a run, and the text that it wrote.
#[derive(Drop)]
struct Run {
    status: Status,
    text: Vec<u8>,
}

// Runs the job that `words` name, with single spaces between them, over `input`. Returns its status and its text.
fn run_of_text(alloc: Global, words: &[u8], input: &[u8]) -> Run
    ensures { RunsText words.now input.now result.status result.text.items }
{
    match words_of(alloc, words) {
        Ok(words) => {
            let mut source = LentSource { left: input };
            let mut sink = TextSink::new(alloc);
            let status = pigale(alloc, &words, &mut source, &mut sink);
            Run {
                status,
                text: sink.text,
            }
        }
        Err(AllocError) => Run {
            status: Status::NoMemory,
            text: Vec::new(alloc),
        },
    }
}

/// Runs the program's words over an input, and returns the number of its status.
///
/// `words` are the words after the program's name, with one space between each two. `text` gets the first
/// bytes of what the program writes, as many as there is room for, and `text_length` the length of the whole. The
/// status is never 4, and both 5 and 6 say that there was not enough memory.
#[unsafe(no_mangle)]
pub extern "C" fn pigale_run(
    alloc: Global,
    words: &[u8],
    input: &[u8],
    text: &mut [u8],
    text_length: &mut usize,
) -> u8
    ensures { RunsTo words.now input.now text.old result text_length.new text.new }
{
    let run = run_of_text(alloc, words, input);
    *text_length = run.text.len();
    put_front(&run.text, text);
    run.status.number()
}
