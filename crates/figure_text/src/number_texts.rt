//! A table of the decimal texts of numbers below 10,000, from which numbers are written.
ghost use Rattle.std.specs.Prelude.{◌≡◌, ◌+◌, ◌<◌, ◌≤◌, ◌∷◌, ◌++◌, ℕ, length, drop, decimal};
ghost use Rattle.figure_text.specs.Numerals.{IsNumeral, AreNumerals};

use crate::backward_writing::write_byte;
use itoa::write_digits;
use std::alloc::{AllocError, Global};

// How many numbers have four digits at most.
const MANY: usize = 10_000;

/// The text of a number below 10,000 after a space: the last `length` of seven bytes. Those before it are spaces.
#[derive(Clone, Copy)]
pub struct Numeral {
    length: u8,
    bytes: [u8; 7],
}

// Returns the text of a space and `number`, which is below 10,000.
fn text_of(number: usize) -> Numeral
    requires { number < 10000 }
    ensures { IsNumeral number result }
{
    let mut bytes = [b' '; 7];
    let digits = write_digits(number as u64, &mut bytes, 7);
    let start = write_byte(b' ', &mut bytes, digits);
    Numeral {
        length: (7 - start) as u8,
        bytes,
    }
}

// Writes `numeral`, the text of a space and a number, so that it ends before index `end` of `bytes`, and returns the
// index at which it starts. At least eight bytes stand before `end`, and the last eight of them are overwritten.
fn write_numeral(numeral: Numeral, bytes: &mut [u8], end: usize) -> usize
    requires room { (8 ≤ end) × (end ≤ length bytes.old) }
    requires text { (number : ℕ) × IsNumeral number numeral }
    ensures start { (number : ℕ) → IsNumeral number numeral → result + 1 + length (decimal number) ≡ end }
    ensures written { (number : ℕ) → IsNumeral number numeral → drop result bytes.new ≡ 32 ∷ decimal number ++ drop end bytes.old }
{
    let seventh = write_byte(numeral.bytes[6], bytes, end);
    let sixth = write_byte(numeral.bytes[5], bytes, seventh);
    let fifth = write_byte(numeral.bytes[4], bytes, sixth);
    let fourth = write_byte(numeral.bytes[3], bytes, fifth);
    let third = write_byte(numeral.bytes[2], bytes, fourth);
    let second = write_byte(numeral.bytes[1], bytes, third);
    let first = write_byte(numeral.bytes[0], bytes, second);
    write_byte(numeral.length, bytes, first);
    end - usize::from(numeral.length)
}

/// The texts of the numbers from 0 on, of as many as were asked for so far, and of 10,000 at most.
#[derive(Drop)]
pub struct Numerals {
    texts: Vec<Numeral>,
    pub ghost known: { AreNumerals texts.items },
}

impl Numerals {
    /// Makes a table of no texts yet. It takes no memory.
    pub fn new(alloc: Global) -> Numerals {
        Numerals {
            texts: Vec::new(alloc),
        }
    }

    // Appends the text of the next number, if it is below 10,000.
    fn add(&mut self) -> Result<(), AllocError> {
        let number = self.texts.len();
        if number < MANY {
            self.texts.push(text_of(number))?;
        }
        Ok(())
    }

    /// Appends the texts of the numbers below `count`, as far as they are below 10,000.
    pub fn keep(&mut self, count: usize) -> Result<(), AllocError> {
        for _ in self.texts.len()..count {
            self.add()?;
        }
        Ok(())
    }

    /// Lends the texts.
    pub fn lend(&self) -> Texts<'_> {
        Texts { texts: &self.texts }
    }
}

/// The texts of the numbers from 0 on, lent for some writes. A loop copies them, so that their address is read once.
#[derive(Clone, Copy)]
pub struct Texts<'a> {
    texts: &'a [Numeral],
    pub ghost known: { AreNumerals texts.now },
}

// Writes a space and `number` before index `end` of `bytes`, where there is room, and returns the index of the space.
#[inline(never)]
fn write_digit_by_digit(number: u64, bytes: &mut [u8], end: usize) -> usize
    requires { (length (decimal number) < end) × (end ≤ length bytes.old) }
    ensures start { result + 1 + length (decimal number) ≡ end }
    ensures written { drop result bytes.new ≡ 32 ∷ decimal number ++ drop end bytes.old }
{
    let start = write_digits(number, bytes, end);
    write_byte(b' ', bytes, start)
}

impl Texts<'_> {
    /// Writes a space and `number` before index `end` of `bytes`, where eight bytes and the text have room. Returns the
    /// index of the space. Up to seven bytes before it are overwritten.
    #[inline(always)]
    pub fn write(&self, number: u64, bytes: &mut [u8], end: usize) -> usize
        requires { (length (decimal number) < end) × (8 ≤ end) × (end ≤ length bytes.old) }
        ensures start { result + 1 + length (decimal number) ≡ end }
        ensures written { drop result bytes.new ≡ 32 ∷ decimal number ++ drop end bytes.old }
    {
        match self.texts.get(number as usize) {
            Some(text) => write_numeral(*text, bytes, end),
            None => write_digit_by_digit(number, bytes, end),
        }
    }
}
