//! Numbers of options parsed from decimal text, within a range.
ghost use Rattle.std.specs.Prelude.{◌≡◌};
ghost use Rattle.pigale_words.specs.Numbers.{number_in as number_by};

use decimals::{decimal_number, is_canonical};

// The number that stands for all that are beyond every range.
const BEYOND: u64 = 4294967296;

/// Parses a number from `least` to `most` in decimal: digits alone, no leading zero. Returns None for any other text.
pub fn number_in(text: &[u8], least: u32, most: u32) -> Option<u32>
    ensures { result ≡ number_by least most text.now }
{
    if !is_canonical(text) {
        return None;
    }
    match decimal_number(BEYOND, text) {
        Some(n) => {
            if u64::from(least) <= n && n <= u64::from(most) {
                Some(n as u32)
            } else {
                None
            }
        }
        None => None,
    }
}
