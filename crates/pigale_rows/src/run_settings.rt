//! The settings of a test run: its input, how many bytes each call moves, which calls fail, and which lines are shown.
ghost use Rattle.std.specs.Prelude.{◌<◌};

use std::alloc::Global;

/// How a source or sink is limited: the most bytes that a call moves, and the numbers of the calls that fail, from 1.
#[derive(Drop)]
pub struct Cut {
    pub most: usize,
    pub failing: Vec<u64>,
    pub ghost moves_some: { 0 < most },
}

impl Cut {
    /// Returns no limit: calls move all there is, and none fails.
    pub fn none(alloc: Global) -> Cut {
        Cut {
            most: usize::MAX,
            failing: Vec::new(alloc),
        }
    }
}

/// The settings of a run: its input, the limits on reads and writes, and the beginnings of the lines shown of a
/// drawing, each after a line end.
#[derive(Drop)]
pub struct Given {
    pub input: Vec<u8>,
    pub reads: Cut,
    pub writes: Cut,
    pub shown: String,
}

impl Given {
    /// Returns the settings of a run with empty input and no limits.
    pub fn new(alloc: Global) -> Given {
        Given {
            input: Vec::new(alloc),
            reads: Cut::none(alloc),
            writes: Cut::none(alloc),
            shown: String::new(alloc),
        }
    }

    /// Applies the line of the table that has this first `word` and `rest`. Returns false where `word` names no
    /// setting.
    pub fn take(&mut self, word: &str, rest: &str) -> bool {
        match word {
            "read" => self.reads.most = size_of(rest),
            "fail-reads" => put_numbers(rest, &mut self.reads.failing),
            "write" => self.writes.most = size_of(rest),
            "fail-writes" => put_numbers(rest, &mut self.writes.failing),
            "show" => put_line(rest, &mut self.shown),
            _ => return false,
        }
        true
    }
}

/// Parses a number of at least 1. Anything else is the largest number.
fn size_of(text: &str) -> usize
    ensures { 0 < result }
{
    match text.parse::<usize>() {
        Ok(number) if 0 < number => number,
        _ => usize::MAX,
    }
}

/// Replaces `found` by the numbers in `text` between spaces. Words that are no number are skipped.
fn put_numbers(text: &str, found: &mut Vec<u64>) {
    found.clear();
    for word in text.split_whitespace() {
        if let Ok(number) = word.parse::<u64>() {
            let _ = found.push(number);
        }
    }
}

/// Appends a line end and `text` to `lines`.
fn put_line(text: &str, lines: &mut String) {
    let _ = lines.push('\n');
    let _ = lines.push_str(text);
}
