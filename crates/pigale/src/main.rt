//! The program Pigale: it passes the words of its command line, standard input and standard output to the top call,
//! and exits by its status. Its stored run is on three solids.
#![tactic(auto)]

mod command_line;
mod whole_run;

use command_line::{exit_code, words_of};
use pg_io::{ReadAdapter, WriteAdapter};
use pigale_shell::Status;
use std::env;
use std::process::ExitCode;
use whole_run::run;

// Runs the words of the command line on standard input and standard output, and returns the exit code.
fn main(rt: HostRuntime) -> ExitCode {
    let Ok(words) = words_of(rt.alloc(), env::args(&rt)) else {
        return exit_code(Status::NoMemory);
    };
    let mut source = ReadAdapter::new(rt.stdin());
    let mut sink = WriteAdapter::new(rt.stdout());
    exit_code(run(rt.alloc(), &words, &mut source, &mut sink))
}
