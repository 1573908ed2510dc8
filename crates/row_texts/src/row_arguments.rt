//! Arguments of a test row split and parsed: words, halves, numbers.
use std::alloc::Global;

/// Returns the argument of a row at index `i`, or the empty text where there is none.
pub fn part<'a>(parts: &[&'a str], i: usize) -> &'a str {
    if i < parts.len() { parts[i] } else { "" }
}

/// Returns the arguments of a row after the first `count`.
pub fn behind<'a, 'b>(parts: &'b [&'a str], count: usize) -> &'b [&'a str] {
    if parts.len() < count {
        parts
    } else {
        &parts[count..]
    }
}

/// Splits a text at its first space.
pub fn halves(text: &str) -> (&str, &str) {
    text.split_once(' ').unwrap_or((text, ""))
}

/// Returns the number that a text is, and 0 where it is none.
pub fn number(text: &str) -> u16 {
    text.parse::<u16>().unwrap_or(0)
}

/// Returns the two numbers that a text is, with a space between them.
pub fn pair(text: &str) -> (u16, u16) {
    let (first, second) = halves(text);
    (number(first), number(second))
}

/// Returns the numbers that a text names, with spaces between them.
pub fn numbers(alloc: Global, text: &str) -> Vec<u16> {
    let mut found = Vec::new(alloc);
    for word in text.split_whitespace() {
        let _ = found.push(number(word));
    }
    found
}
