//! Cuts a text into lines, and tells notes from other lines.
ghost use Rattle.std.specs.Prelude.{◌≡◌, ◌≢◌, ◌<◌, ◌≤◌, ℕ, length, drop, slice_index, MatchOption};
ghost use Rattle.figure_text.specs.Reading.{IsPlain, IsLine, begins, is_note as is_note_line};

use memchr::memchr;

/// Returns how many bytes stand before the first byte 10 of `bytes`, or before the end.
pub fn line_length(bytes: &[u8]) -> usize
    ensures within { result ≤ length bytes.now }
    ensures before { (k : ℕ) → k < result → slice_index bytes.now k ≢ 10 }
    ensures found { result < length bytes.now → slice_index bytes.now result ≡ 10 }
{
    match memchr(b'\n', bytes) {
        Some(i) => i,
        None => bytes.len(),
    }
}

/// Returns the line from offset `at`, at most the length, up to the next byte 10, and the offset after that byte; or
/// None if no byte 10 comes.
pub fn next_line(bytes: &[u8], at: usize) -> Option<(&[u8], usize)>
    requires { at ≤ length bytes.now }
    ensures { MatchOption result (IsPlain (drop at bytes.now)) (λ found.
        IsLine (drop at bytes.now) found.0.now (drop found.1 bytes.now) × (found.1 ≤ length bytes.now)) }
{
    let rest = &bytes[at..];
    let len = line_length(rest);
    if len == rest.len() {
        None
    } else {
        Some((&rest[..len], at + len + 1))
    }
}

// Says whether `line` begins with `word`.
fn begins_with(line: &[u8], word: &[u8]) -> bool
    ensures { result ≡ begins line.now word.now }
{
    line.len() >= word.len() && &line[..word.len()] == word
}

/// Says whether `line` is a note: a line that another job wrote.
pub fn is_note(line: &[u8]) -> bool
    ensures { result ≡ is_note_line line.now }
{
    begins_with(line, b"count ")
        || begins_with(line, b"refused ")
        || begins_with(line, b"verdict ")
        || begins_with(line, b"end ")
        || begins_with(line, b"stop ")
}
