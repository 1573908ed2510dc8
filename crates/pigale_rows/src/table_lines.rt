//! The lines of the table of test runs: each changes the settings or runs words.
use crate::input_pieces::{halves, put};
use crate::judged_runs::{judge, sum};
use crate::run_settings::Given;
use crate::runs::{self, run, tell_run};
use crate::watched_runs::watch;
use std::alloc::Global;

/// An input that has a name.
#[derive(Drop)]
struct Named {
    name: String,
    bytes: Vec<u8>,
}

/// The settings that the lines so far have given, and the inputs that have names.
#[derive(Drop)]
pub struct Table {
    named: Vec<Named>,
    given: Given,
}

impl Table {
    /// Returns a table before its first line.
    pub fn new(alloc: Global) -> Table {
        Table {
            named: Vec::new(alloc),
            given: Given::new(alloc),
        }
    }

    /// Gives the input this `name`, and empties it.
    fn name(&mut self, alloc: Global, name: &str) {
        if let Ok(name) = String::from_str(alloc, name) {
            let bytes = std::mem::replace(&mut self.given.input, Vec::new(alloc));
            let _ = self.named.push(Named { name, bytes });
        }
    }

    /// Applies a line that changes the settings, with this first `word` and `rest`. Returns false where there is no
    /// such line.
    fn take(&mut self, alloc: Global, word: &str, rest: &str) -> bool {
        match word {
            "name" => {
                self.name(alloc, rest);
                true
            }
            "copy" => copy(&self.named, &mut self.given.input, rest),
            _ => self.given.take(word, rest) || put(alloc, &mut self.given.input, word, rest),
        }
    }

    /// Applies a line that changes the settings, or appends to `told` that there is no such line.
    fn set(&mut self, alloc: Global, word: &str, rest: &str, told: &mut Vec<u8>) {
        if !self.take(alloc, word, rest) {
            runs::put(b"no such line\n", told);
        }
    }

    /// Appends the heading `line` to `told`, and resets the settings.
    fn begin(&mut self, alloc: Global, line: &str, told: &mut Vec<u8>) {
        self.given = Given::new(alloc);
        runs::put(line.as_bytes(), told);
        runs::put(b"\n", told);
    }

    /// Appends to `told` the answer to `line`.
    pub fn answer(&mut self, alloc: Global, line: &str, told: &mut Vec<u8>) {
        let (word, rest) = halves(line, "");
        match word {
            "#" => self.begin(alloc, line, told),
            "run" | "judge" | "sum" | "watch" => {
                run_words(alloc, word, &words_of(alloc, rest), &self.given, told);
            }
            "answer" => runs::answer(alloc, &self.given, told),
            _ => self.set(alloc, word, rest, told),
        }
    }
}

/// Runs `words` with the settings `given`, and appends to `told` what `how` says of the run.
fn run_words(alloc: Global, how: &str, words: &[String], given: &Given, told: &mut Vec<u8>) {
    match how {
        "run" => tell_run(alloc, &run(alloc, words, given), told),
        "judge" => judge(alloc, words, given, told),
        "sum" => sum(alloc, words, given, told),
        _ => watch(alloc, words, given, told),
    }
}

/// Returns the input with this `name`, if there is one.
fn bytes_named<'a>(named: &'a [Named], name: &str) -> Option<&'a [u8]> {
    for each in named {
        if each.name.as_str() == name {
            return Some(each.bytes.as_slice());
        }
    }
    None
}

/// Appends the first bytes of `bytes` to `input`: as many as the text `count` says, or all.
fn put_first(input: &mut Vec<u8>, bytes: &[u8], count: &str) {
    let count = count.parse::<usize>().unwrap_or(bytes.len());
    let _ = input.extend_from_slice(&bytes[..count.min(bytes.len())]);
}

/// Appends to `input` the input that `rest` names, or its first bytes. Returns false where there is none.
fn copy(named: &[Named], input: &mut Vec<u8>, rest: &str) -> bool {
    let (name, count) = halves(rest, "");
    match bytes_named(named, name) {
        Some(bytes) => {
            put_first(input, bytes, count);
            true
        }
        None => false,
    }
}

/// Returns a word of a command, in which `_` stands for a space. `''` is the empty one.
fn word_of(alloc: Global, word: &str) -> String {
    let mut made = String::new(alloc);
    if word != "''" {
        for letter in word.chars() {
            let _ = made.push(if letter == '_' { ' ' } else { letter });
        }
    }
    made
}

/// Returns the words of a command, between the spaces of `text`.
fn words_of(alloc: Global, text: &str) -> Vec<String> {
    let mut words = Vec::new(alloc);
    for word in text.split_whitespace() {
        let _ = words.push(word_of(alloc, word));
    }
    words
}
