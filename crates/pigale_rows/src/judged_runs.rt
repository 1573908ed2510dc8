//! Test runs whose drawings are not stored: what `verify` writes for a drawing, and the sums over its points.
use crate::run_settings::Given;
use crate::runs::{Ran, put, run, run_over, tell_run, tell_status};
use std::alloc::Global;

/// Returns the words of the job `name` without options.
fn job(alloc: Global, name: &str) -> Vec<String> {
    let mut words = Vec::new(alloc);
    if let Ok(word) = String::from_str(alloc, name) {
        let _ = words.push(word);
    }
    words
}

/// Says whether `line` begins with one of `beginnings`, which line ends separate.
fn begins(line: &str, beginnings: &str) -> bool {
    for beginning in beginnings.lines() {
        if !beginning.is_empty() && line.starts_with(beginning) {
            return true;
        }
    }
    false
}

/// Says whether a line of output is shown: it is part of no figure, or begins with one of `shown`.
fn is_told(line: &str, shown: &str) -> bool {
    begins(line, "refused \nend \nstop ") || begins(line, shown)
}

/// Appends a line to `told`.
fn tell_whole(line: &str, told: &mut Vec<u8>) {
    put(line.as_bytes(), told);
    put(b"\n", told);
}

/// Appends the first three words of a line to `told`.
fn tell_three(line: &str, told: &mut Vec<u8>) {
    for word in line.split(' ').take(3) {
        put(word.as_bytes(), told);
        put(b" ", told);
    }
    put(b"..\n", told);
}

/// Appends to `told` a line that is shown. Of the first line of a figure it appends three words, and of others nothing.
fn tell_line(line: &str, shown: &str, told: &mut Vec<u8>) {
    if is_told(line, shown) {
        tell_whole(line, told);
    } else if line.starts_with("figure ") {
        tell_three(line, told);
    }
}

/// Returns `bytes` as text, or the empty text where they are not UTF-8.
fn text_of(bytes: &[u8]) -> &str {
    match str::from_utf8(bytes) {
        Ok(text) => text,
        Err(_) => "",
    }
}

/// Appends to `told` those lines of the output `drawn` that are shown.
fn tell_lines(drawn: &[u8], shown: &str, told: &mut Vec<u8>) {
    for line in text_of(drawn).lines() {
        tell_line(line, shown, told);
    }
}

/// Appends to `told` what `verify` writes for the output `drawn`.
fn verify(alloc: Global, drawn: &[u8], told: &mut Vec<u8>) {
    tell_run(alloc, &run_over(alloc, &job(alloc, "verify"), drawn), told);
}

/// Appends to `told` the shown lines of the output `drawn`, its status, and what `verify` writes for it.
fn judge_drawn(alloc: Global, drawn: &Ran, shown: &str, told: &mut Vec<u8>) {
    tell_lines(&drawn.text, shown, told);
    tell_status(alloc, drawn, told);
    verify(alloc, &drawn.text, told);
}

/// Runs `words` with the settings `given`, and appends to `told` the shown lines, the status, and what `verify`
/// writes for the drawing.
pub fn judge(alloc: Global, words: &[String], given: &Given, told: &mut Vec<u8>) {
    judge_drawn(alloc, &run(alloc, words, given), given.shown.as_str(), told);
}

/// Parses the point in a vertex line of a drawing, or returns None.
fn point_of(line: &str) -> Option<(i64, i64)> {
    let (_, behind) = line.split_once(" at ")?;
    let (place, _) = behind.split_once(':')?;
    let (x, y) = place.split_once(' ')?;
    match (x.parse::<i64>(), y.parse::<i64>()) {
        (Ok(x), Ok(y)) => Some((x, y)),
        _ => None,
    }
}

/// Returns the sums of x and of y over the points of a drawing.
fn sums_of(drawn: &[u8]) -> (i64, i64) {
    let (mut sum_x, mut sum_y) = (0i64, 0i64);
    for line in text_of(drawn).lines() {
        if let Some((x, y)) = point_of(line) {
            sum_x = sum_x.wrapping_add(x);
            sum_y = sum_y.wrapping_add(y);
        }
    }
    (sum_x, sum_y)
}

/// Appends `text` to `told`, with the line `wanted` replaced by one without its numbers.
fn tell_wanted(text: &[u8], wanted: &str, told: &mut Vec<u8>) {
    for line in text_of(text).lines() {
        let said = line == wanted;
        tell_whole(
            if said {
                "verdict 1 yes sum of the points"
            } else {
                line
            },
            told,
        );
    }
}

/// Appends `text` to `told`, with the line of these `sums` replaced by one without numbers.
fn tell_sums(alloc: Global, text: &[u8], sums: (i64, i64), told: &mut Vec<u8>) {
    let (x, y) = sums;
    match format!(in alloc; "verdict 1 yes sum {x} {y}") {
        Ok(wanted) => tell_wanted(text, wanted.as_str(), told),
        Err(_) => {}
    }
}

/// Appends to `told` what a run wrote, with the line of these `sums` replaced by one without numbers, and its status.
fn tell_summed(alloc: Global, ran: &Ran, sums: (i64, i64), told: &mut Vec<u8>) {
    tell_sums(alloc, &ran.text, sums, told);
    tell_status(alloc, ran, told);
}

/// Returns the sums over the points that `shift` draws of the input `given`.
fn shift_sums(alloc: Global, given: &Given) -> (i64, i64) {
    sums_of(&run(alloc, &job(alloc, "shift"), given).text)
}

/// Runs `words`, and appends to `told` its output, with the line of the sums that `shift` draws replaced by one
/// without numbers.
pub fn sum(alloc: Global, words: &[String], given: &Given, told: &mut Vec<u8>) {
    let sums = shift_sums(alloc, given);
    tell_summed(alloc, &run(alloc, words, given), sums, told);
}
