//! The command line of the program: the words that it was given, and the exit code with which it ends.
ghost use Rattle.std.specs.Prelude.{◌≡◌, [], drop, IfOk, OnErr, IfErr, IsErr, MatchResult};
ghost use Rattle.std.specs.Vec.Iter.{into_iter_items};
ghost use Rattle.std.specs.IoError.{error_kind};
ghost use Rattle.std.specs.Process.{exit_status};
ghost use Rattle.pigale_words.specs.Status.{status_number};

use pigale_shell::Status;
use std::alloc::{AllocError, Global};
use std::env::Args;
use std::io::{self, ErrorKind};
use std::process::ExitCode;

// Returns all words of `all`. It fails only when out of memory.
fn all_of(alloc: Global, mut all: Args) -> Result<Vec<String>, AllocError>
    ensures { IfOk result (λ words. words.items ≡ into_iter_items all) }
{
    let mut words = Vec::new(alloc);
    'words: while let Some(word) = all.next() {
        words.push(word)?;
    }
    Ok(words)
}

// Returns all words of `all` but the first, the program's name. It fails only when out of memory.
fn after_first(alloc: Global, mut all: Args) -> Result<Vec<String>, AllocError>
    ensures { IfOk result (λ words. words.items ≡ drop 1 (into_iter_items all)) }
{
    match all.next() {
        None => Ok(Vec::new(alloc)),
        Some(_) => all_of(alloc, all),
    }
}

/// Returns the words of `args` after the program's name. An error in `args` (a word is not UTF-8) gives no words, which
/// are then refused as bad. It fails only when out of memory.
pub fn words_of(alloc: Global, args: io::Result<Args>) -> Result<Vec<String>, AllocError>
    ensures words { IfOk result (λ words. MatchResult args
        (λ all. words.items ≡ drop 1 (into_iter_items all)) (λ _. words.items ≡ [])) }
    ensures no_memory { OnErr result (IfErr args (λ error. error_kind error ≡ ErrorKind.OutOfMemory)) }
    ensures only { IfErr args (λ error. error_kind error ≡ ErrorKind.OutOfMemory → IsErr result) }
{
    match args {
        Ok(all) => after_first(alloc, all),
        Err(error) => {
            if error.kind() == ErrorKind::OutOfMemory {
                Err(AllocError)
            } else {
                Ok(Vec::new(alloc))
            }
        }
    }
}

/// Converts `status` to the exit code of the program.
pub fn exit_code(status: Status) -> ExitCode
    ensures { exit_status result ≡ status_number status }
{
    ExitCode::from(status.number())
}
