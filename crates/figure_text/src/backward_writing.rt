//! Writes bytes, words and numbers of a figure's text into a buffer backwards, from its end to its front.
ghost use Rattle.std.specs.Prelude.{◌≡◌, ◌+◌, ◌*◌, ◌<◌, ◌≤◌, ◌∷◌, ◌++◌, length, drop, flat_map, decimal};
ghost use Rattle.std.specs.Fmt.{signed_decimal};
ghost use Rattle.figure_text.specs.Text.{spaced_signed, first_line, columns_line};

use crate::number_texts::Texts;
use crate::print::Heading;

// Writes `byte` before index `end` of `bytes`, and returns the index at which it stands.
pub(crate) fn write_byte(byte: u8, bytes: &mut [u8], end: usize) -> usize
    requires { (0 < end) × (end ≤ length bytes.old) }
    ensures start { result + 1 ≡ end }
    ensures written { drop result bytes.new ≡ byte ∷ drop end bytes.old }
{
    bytes[end - 1] = byte;
    end - 1
}

// Writes a space and `letter` before index `end` of `bytes`, and returns the index at which they start.
pub(crate) fn write_letter(letter: u8, bytes: &mut [u8], end: usize) -> usize
    requires { (2 ≤ end) × (end ≤ length bytes.old) }
    ensures start { result + 2 ≡ end }
    ensures written { drop result bytes.new ≡ 32 ∷ letter ∷ drop end bytes.old }
{
    let start = write_byte(letter, bytes, end);
    write_byte(b' ', bytes, start)
}

// Writes a space and signed `number` (by the table `texts`) before index `end`, at least 12, and returns the start.
#[inline(always)]
pub(crate) fn write_signed(texts: &Texts<'_>, number: i32, bytes: &mut [u8], end: usize) -> usize
    requires { (12 ≤ end) × (end ≤ length bytes.old) }
    ensures within { (result < end) × (end ≤ result + 12) }
    ensures written { drop result bytes.new ≡ 32 ∷ signed_decimal number ++ drop end bytes.old }
{
    if number >= 0 {
        return texts.write(u64::from(number.unsigned_abs()), bytes, end);
    }
    let start = texts.write(u64::from(number.unsigned_abs()), bytes, end);
    let sign = write_byte(b'-', bytes, start + 1);
    write_byte(b' ', bytes, sign)
}

// Writes `number` (by the table `texts`) before index `end`, at least 21, of `bytes`, and returns where it starts.
pub(crate) fn write_number(texts: &Texts<'_>, number: u64, bytes: &mut [u8], end: usize) -> usize
    requires { (21 ≤ end) × (end ≤ length bytes.old) }
    ensures within { (result ≤ end) × (end ≤ result + 20) }
    ensures written { drop result bytes.new ≡ decimal number ++ drop end bytes.old }
{
    texts.write(number, bytes, end) + 1
}

// Writes the vertices of `list`, numbered from 1 and each after a space, before index `end` of `bytes`. Returns the
// index at which they start.
pub(crate) fn write_vertices(texts: &Texts<'_>, list: &[u16], bytes: &mut [u8], end: usize) -> usize
    requires room { 6 * length list.now + 2 ≤ end }
    requires end { end ≤ length bytes.old }
    ensures within { (result ≤ end) × (end ≤ result + 6 * length list.now) }
    ensures written { drop result bytes.new ≡ flat_map (λ u. 32 ∷ decimal (u + 1)) list.now ++ drop end bytes.old }
{
    let texts = *texts;
    let mut start = end;
    for k in 0..list.len() {
        let u = list[list.len() - 1 - k];
        start = texts.write(u64::from(u) + 1, bytes, start);
    }
    start
}

// Writes `text` before index `end` of `bytes`, and returns the index at which it starts.
fn write_text(text: &[u8], bytes: &mut [u8], end: usize) -> usize
    requires { (length text.now ≤ end) × (end ≤ length bytes.old) }
    ensures start { result + length text.now ≡ end }
    ensures written { drop result bytes.new ≡ text.now ++ drop end bytes.old }
{
    let mut start = end;
    for k in 0..text.len() {
        start = write_byte(text[text.len() - 1 - k], bytes, start);
    }
    start
}

// Writes the first line that `heading` gives before index `end`, at least 60, of `bytes`, and returns where it starts.
pub(crate) fn write_first(
    texts: &Texts<'_>,
    heading: &Heading<'_>,
    bytes: &mut [u8],
    end: usize,
) -> usize
    requires { (60 ≤ end) × (end ≤ length bytes.old) }
    ensures within { result ≤ length bytes.new }
    ensures written { drop result bytes.new ≡ first_line heading.now.number heading.now.word.now (length heading.now.lists.now) ++ drop end bytes.old }
{
    let n = heading.lists.len();
    let newline = write_byte(b'\n', bytes, end);
    let count = texts.write(n as u64, bytes, newline);
    let name = write_text(heading.word, bytes, count);
    let space = write_byte(b' ', bytes, name);
    let number = texts.write(u64::from(heading.number), bytes, space);
    write_text(b"figure", bytes, number)
}

// Writes the signed numbers of `list`, each after a space, before index `end` of `bytes`, and returns the index at
// which they start. There have to be twelve bytes for each before `end`.
fn write_integers(texts: &Texts<'_>, list: &[i32], bytes: &mut [u8], end: usize) -> usize
    requires room { 12 * length list.now ≤ end }
    requires end { end ≤ length bytes.old }
    ensures within { (result ≤ end) × (end ≤ result + 12 * length list.now) }
    ensures written { drop result bytes.new ≡ spaced_signed list.now ++ drop end bytes.old }
{
    let texts = *texts;
    let mut start = end;
    for k in 0..list.len() {
        let z = list[list.len() - 1 - k];
        start = write_signed(&texts, z, bytes, start);
    }
    start
}

// Writes the line of the `columns` of bars at the end of `bytes`, and returns the index at which it starts.
pub(crate) fn write_columns(texts: &Texts<'_>, columns: &[i32], bytes: &mut [u8]) -> usize
    requires { 12 * length columns.now + 8 ≤ length bytes.old }
    ensures within { (result ≤ length bytes.new) × (length bytes.new ≤ result + (12 * length columns.now + 8)) }
    ensures written { drop result bytes.new ≡ columns_line columns.now }
{
    let end = bytes.len();
    let newline = write_byte(b'\n', bytes, end);
    let numbers = write_integers(texts, columns, bytes, newline);
    write_text(b"columns", bytes, numbers)
}
