//! Cuts a line of a figure's text into words, and reads each: a number, a number before a colon, or a known word.
ghost use Rattle.std.specs.Prelude.{◌≡◌, ◌↔◌, ◌<◌, ◌≤◌, ◌-◌, ◌+◌, ◌*◌, ◌++◌, [], ◌∷◌, true, take, drop, Some, length, min, option_map, bytes_eq, map, ◌==◌, ◌&&◌, ◌≢◌, ℕ, nat_lt, slice_index, IsTrue, IfOk, IfSome, MatchOption, All};
ghost use Rattle.std.specs.Bool.{OnTrue, OnFalse};
ghost use Rattle.std.specs.List.{slice_split};
ghost use Rattle.figure_text.specs.Plain.{IsPlainAt, IsClosingAt};
ghost use Rattle.figure_text.specs.Words.{far, words_left, number_of, signed_of, plus, minus, word_of as word_meant, words_of, numeral_word, closing_of, HasOther};
ghost use Rattle.decimals.specs.Numbers.{is_digit, decimal_from};

use decimals::{decimal_number, is_canonical};
use std::alloc::{AllocError, Global};

/// A whole number by its sign and its size. A size beyond all ranges stands as `FAR`.
#[derive(Clone, Copy, PartialEq, Eq)]
pub struct Signed {
    /// Whether it has a minus.
    pub negative: bool,
    /// How far it is from 0.
    pub size: u32,
}

/// A word that a line of a figure may hold.
#[derive(Clone, Copy, PartialEq, Eq)]
pub enum Name {
    Figure,
    Shift,
    Schnyder,
    Convex,
    Bars,
    Rect,
    At,
    Y,
    X,
    Columns,
    Witness,
    K5,
    K33,
    Branch,
    Path,
}

/// A word of a line.
#[derive(Clone, Copy, PartialEq, Eq)]
pub enum Word {
    /// A number.
    Number(Signed),
    /// A number before a colon.
    Closing(Signed),
    /// One of the words of figures.
    Named(Name),
    /// Any other.
    Other,
}

/// Stands for all numbers beyond the ranges.
pub const FAR: u64 = 100_000_000;

// Returns the number that `word` is in decimal, without sign or leading zeros, but at most `FAR`; else None.
fn number(word: &[u8]) -> Option<u32>
    ensures { result ≡ number_of word.now }
{
    if !is_canonical(word) {
        return None;
    }
    match decimal_number(FAR, word) {
        Some(size) => Some(size as u32),
        None => None,
    }
}

// Returns the number that `word` is in decimal, with or without a minus, or None. `-0` is no number.
fn signed_number(word: &[u8]) -> Option<Signed>
    ensures { result ≡ signed_of word.now }
{
    match word {
        [b'-', digits @ ..] => match number(digits) {
            Some(0) => None,
            Some(size) => Some(Signed {
                negative: true,
                size,
            }),
            None => None,
        },
        _ => match number(word) {
            Some(size) => Some(Signed {
                negative: false,
                size,
            }),
            None => None,
        },
    }
}

// Converts the bytes `word` to a signed number, to one before a colon, or else to `Other`.
fn numeral(word: &[u8]) -> Word
    ensures { result ≡ numeral_word (signed_of word.now) (closing_of word.now) }
{
    match signed_number(word) {
        Some(z) => Word::Number(z),
        None => match word {
            [front @ .., b':'] => match signed_number(front) {
                Some(z) => Word::Closing(z),
                None => Word::Other,
            },
            _ => Word::Other,
        },
    }
}

// Says whether the bytes of `word` are those of `text`.
fn is_text(word: &[u8], text: &[u8]) -> bool
    ensures { result ≡ bytes_eq word.now text.now }
{
    word == text
}

// Returns the word that `bytes` are: a word of figures, or else a number, a number before a colon, or `Other`.
fn word_of_name(bytes: &[u8]) -> Word
    ensures { result ≡ word_meant bytes.now }
{
    if is_text(bytes, b"figure") {
        Word::Named(Name::Figure)
    } else if is_text(bytes, b"shift") {
        Word::Named(Name::Shift)
    } else if is_text(bytes, b"schnyder") {
        Word::Named(Name::Schnyder)
    } else if is_text(bytes, b"convex") {
        Word::Named(Name::Convex)
    } else if is_text(bytes, b"bars") {
        Word::Named(Name::Bars)
    } else if is_text(bytes, b"rect") {
        Word::Named(Name::Rect)
    } else if is_text(bytes, b"at") {
        Word::Named(Name::At)
    } else if is_text(bytes, b"y") {
        Word::Named(Name::Y)
    } else if is_text(bytes, b"x") {
        Word::Named(Name::X)
    } else if is_text(bytes, b"columns") {
        Word::Named(Name::Columns)
    } else if is_text(bytes, b"witness") {
        Word::Named(Name::Witness)
    } else if is_text(bytes, b"K5") {
        Word::Named(Name::K5)
    } else if is_text(bytes, b"K33") {
        Word::Named(Name::K33)
    } else if is_text(bytes, b"branch") {
        Word::Named(Name::Branch)
    } else if is_text(bytes, b"path") {
        Word::Named(Name::Path)
    } else {
        numeral(bytes)
    }
}

// Says whether `word` begins with a byte below `K`, as all numbers do and no name does.
fn is_low(word: &[u8]) -> bool
    ensures { result ≡ (nat_lt 0 (length word.now) && nat_lt (slice_index word.now 0) 75) }
{
    match word {
        [first, ..] => *first < b'K',
        [] => false,
    }
}

// Converts the bytes `word` to the `Word` that they are. The names within the lines of vertices are tested first.
fn read_word(word: &[u8]) -> Word
    ensures { result ≡ word_meant word.now }
{
    match word {
        [b'x'] => Word::Named(Name::X),
        [b'y'] => Word::Named(Name::Y),
        [b'a', b't'] => Word::Named(Name::At),
        _ if is_low(word) => numeral(word),
        _ => word_of_name(word),
    }
}

// Returns the index of the first space of `line` from `at` on, or the end.
fn word_end(line: &[u8], at: usize) -> usize
    requires { at ≤ length line.now }
    ensures order { at ≤ result }
    ensures within { result ≤ length line.now }
    ensures before { (k : ℕ) → at ≤ k → k < result → slice_index line.now k ≢ 32 }
    ensures found { result < length line.now → slice_index line.now result ≡ 32 }
{
    for k in at..line.len() {
        if line[k] == b' ' {
            return k;
        }
    }
    line.len()
}

/// How many digits of a number are read at once.
const MOST_DIGITS: usize = 6;

/// Digits of a line: their value, and the index after them.
#[derive(Clone, Copy, PartialEq, Eq)]
pub struct Digits {
    /// The number that they give.
    pub value: u32,
    /// The index in the line after them.
    pub end: usize,
}

// Returns the value of the digit `byte`, or a number beyond 9 where it is no digit.
#[inline(always)]
fn digit_of(byte: u8) -> u32
    ensures is { nat_lt result 10 ≡ is_digit byte }
    ensures value { is_digit byte ≡ true → result ≡ byte - 48 }
{
    u32::from(byte).wrapping_sub(48)
}

// Returns the value of the first digits in `line` from index `at` on, and the index after them. Only `count` bytes are
// looked at, at most 6, which must be there.
#[inline(always)]
fn first_digits(line: &[u8], at: usize, count: usize) -> Digits
    requires few { count ≤ 6 }
    requires within { at + count ≤ length line.now }
    ensures few { result.end ≤ at + count }
    ensures order { at ≤ result.end }
    ensures within { result.end ≤ length line.now }
    ensures before { (k : ℕ) → at ≤ k → k < result.end → slice_index line.now k ≢ 32 }
    ensures value { option_map (min far) (decimal_from 0 (take (result.end - at) (drop at line.now))) ≡ Some result.value }
{
    let mut value = 0;
    for i in 0..count {
        let digit = digit_of(line[at + i]);
        if digit > 9 {
            return Digits { value, end: at + i };
        }
        value = 10 * value + digit;
    }
    Digits {
        value,
        end: at + count,
    }
}

// Returns the value of the digits in `line` from index `at` on, six of them at most, and the index after them.
#[inline(always)]
fn digits_from(line: &[u8], at: usize) -> Digits
    requires { at ≤ length line.now }
    ensures order { at ≤ result.end }
    ensures within { result.end ≤ length line.now }
    ensures before { (k : ℕ) → at ≤ k → k < result.end → slice_index line.now k ≢ 32 }
    ensures value { option_map (min far) (decimal_from 0 (take (result.end - at) (drop at line.now))) ≡ Some result.value }
{
    let left = line.len() - at;
    if left == 4 {
        first_digits(line, at, 4)
    } else if left < MOST_DIGITS {
        first_digits(line, at, left)
    } else {
        first_digits(line, at, MOST_DIGITS)
    }
}

// Says whether a word of `line` may end at index `end`: at a space, or where the line ends. Only a yes is promised.
fn ends_at(line: &[u8], end: usize) -> bool
    ensures { IsTrue result → end < length line.now → slice_index line.now end ≡ 32 }
{
    line.len() <= end || line[end] == b' '
}

// Says whether `line` has a colon at index `end`, and then a space or its end. Only a yes is promised.
fn closes_at(line: &[u8], end: usize) -> bool
    ensures { IsTrue result → (end < length line.now) × (slice_index line.now end ≡ 58)
        × (end + 1 < length line.now → slice_index line.now (end + 1) ≡ 32) }
{
    end < line.len() && line[end] == b':' && ends_at(line, end + 1)
}

/// A word of a line, and the index after it.
#[derive(Clone, Copy, PartialEq, Eq)]
pub struct Next {
    /// The word.
    pub word: Word,
    /// The index in the line after it.
    pub end: usize,
}

/// Returns the word of `line` that begins at index `at`, at most the length, and the index of the space or end after.
#[inline(always)]
pub fn next_word(line: &[u8], at: usize) -> Next
    requires { at ≤ length line.now }
    ensures order { at ≤ result.end }
    ensures within { result.end ≤ length line.now }
    ensures before { (k : ℕ) → at ≤ k → k < result.end → slice_index line.now k ≢ 32 }
    ensures found { result.end < length line.now → slice_index line.now result.end ≡ 32 }
    ensures word { result.word ≡ word_meant (take (result.end - at) (drop at line.now)) }
{
    let digits = digits_from(line, at);
    if is_canonical(&line[at..digits.end]) {
        if ends_at(line, digits.end) {
            return Next {
                word: Word::Number(Signed {
                    negative: false,
                    size: digits.value,
                }),
                end: digits.end,
            };
        }
        if closes_at(line, digits.end) {
            return Next {
                word: Word::Closing(Signed {
                    negative: false,
                    size: digits.value,
                }),
                end: digits.end + 1,
            };
        }
    }
    let end = word_end(line, at);
    Next {
        word: read_word(&line[at..end]),
        end,
    }
}

/// Returns the number at index `at` of `line`, if it has no minus and at most six digits. None promises nothing.
#[inline(always)]
pub fn plain_at(line: &[u8], at: usize) -> Option<Digits>
    ensures { IfSome result (IsPlainAt line.now at) }
{
    if line.len() < at {
        return None;
    }
    let digits = digits_from(line, at);
    if is_canonical(&line[at..digits.end]) {
        if ends_at(line, digits.end) {
            return Some(digits);
        }
    }
    None
}

/// Returns the number that begins at index `at` of `line`, if it has no minus and at most four digits, and a space
/// follows. Otherwise it returns None, as where the line has fewer than five bytes from `at` on.
#[inline(always)]
pub fn short_at(line: &[u8], at: usize) -> Option<Digits>
    ensures { IfSome result (IsPlainAt line.now at) }
{
    if line.len() < 5 || line.len() - 5 < at {
        return None;
    }
    let digits = first_digits(line, at, 4);
    if is_canonical(&line[at..digits.end]) {
        if line[digits.end] == b' ' {
            return Some(digits);
        }
    }
    None
}

/// Returns the number before a colon that begins at index `at` of `line`, if it has no minus and at most four digits,
/// and a space follows the colon. Otherwise it returns None, as where the line has fewer than six bytes from `at` on.
/// `end` is the index after the colon.
#[inline(always)]
pub fn closing_at(line: &[u8], at: usize) -> Option<Digits>
    ensures { IfSome result (IsClosingAt line.now at) }
{
    if line.len() < 6 || line.len() - 6 < at {
        return None;
    }
    let digits = first_digits(line, at, 4);
    if is_canonical(&line[at..digits.end]) {
        if closes_at(line, digits.end) {
            return Some(Digits {
                value: digits.value,
                end: digits.end + 1,
            });
        }
    }
    None
}

/// Says whether the bytes "at " begin at index `at` of `line`, which is at most its length. Only a yes is promised.
#[inline(always)]
pub fn is_word_at(line: &[u8], at: usize) -> bool
    requires { at ≤ length line.now }
    ensures { IsTrue result → words_left line.now at ≡ Word.Named Name.At ∷ words_left line.now (at + 3) }
{
    at + 2 < line.len() && line[at] == b'a' && line[at + 1] == b't' && line[at + 2] == b' '
}

/// Says whether `letter`, no space, is at index `at` of `line` with a space after it. Only a yes is promised.
#[inline(always)]
pub fn is_letter_at(line: &[u8], at: usize, letter: u8) -> bool
    requires place { at ≤ length line.now }
    requires letter { letter ≢ 32 }
    ensures { IsTrue result → words_left line.now at ≡ word_meant (letter ∷ []) ∷ words_left line.now (at + 2) }
{
    at + 1 < line.len() && line[at] == letter && line[at + 1] == b' '
}

/// Replaces the content of `found` by the first words of `line`, `most` of them or as many as there are. Returns the
/// index at which the others begin, which is beyond the length if there are none. It fails only when out of memory.
pub fn fill_front(line: &[u8], most: usize, found: &mut Vec<Word>) -> Result<usize, AllocError>
    ensures words { IfOk result (λ at. found.new.items ++ words_left line.now at ≡ words_of line.now) }
    ensures many { IfOk result (λ at. at ≤ length line.now → length found.new.items ≡ most) }
    ensures few { IfOk result (λ at. length found.new.items ≤ at) }
{
    found.clear();
    let mut at = 0;
    while at <= line.len() {
        if found.len() == most {
            return Ok(at);
        }
        let next = next_word(line, at);
        found.push(next.word)?;
        at = next.end + 1;
    }
    Ok(at)
}

/// Replaces the content of `found` by the words of `line`, up to the first that is neither a number nor a word of
/// figures. Returns whether there is no such word. It fails only when out of memory.
pub fn fill_known(line: &[u8], found: &mut Vec<Word>) -> Result<bool, AllocError>
    ensures known { IfOk result (λ known. OnTrue known (found.new.items ≡ words_of line.now)) }
    ensures other { IfOk result (λ known. OnFalse known (HasOther (words_of line.now))) }
{
    found.clear();
    let mut at = 0;
    while at <= line.len() {
        let next = next_word(line, at);
        if let Word::Other = next.word {
            return Ok(false);
        }
        found.push(next.word)?;
        at = next.end + 1;
    }
    Ok(true)
}

/// Returns the words of `line`, or None where one is neither a number nor a word of figures.
pub fn known_words(alloc: Global, line: &[u8]) -> Result<Option<Vec<Word>>, AllocError>
    ensures { IfOk result (λ found. MatchOption found (HasOther (words_of line.now)) (λ v. v.items ≡ words_of line.now)) }
{
    let mut found = Vec::new(alloc);
    if fill_known(line, &mut found)? {
        Ok(Some(found))
    } else {
        Ok(None)
    }
}
