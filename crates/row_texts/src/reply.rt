//! `Reply`: the text of the answer to a row, which grows by words and numbers.
use std::alloc::Global;

/// The answer to a row as far as it is written. What there is no memory for is left out.
#[derive(Drop)]
pub struct Reply {
    /// The memory in which the answer is made.
    pub alloc: Global,
    text: String,
}

impl Reply {
    /// Makes an empty answer.
    pub fn new(alloc: Global) -> Self {
        Reply {
            alloc,
            text: String::new(alloc),
        }
    }

    /// Returns the text.
    pub fn into_text(self) -> String {
        self.text
    }

    /// Writes a text.
    pub fn put(&mut self, text: &str) {
        let _ = self.text.push_str(text);
    }

    /// Writes a letter.
    pub fn put_letter(&mut self, letter: char) {
        let _ = self.text.push(letter);
    }

    /// Writes a number.
    pub fn put_number(&mut self, number: u64) {
        let _ = write!(self.text, "{number}");
    }

    /// Writes a whole number.
    pub fn put_whole(&mut self, number: i64) {
        let _ = write!(self.text, "{number}");
    }

    /// Writes a space, unless it is before the first number.
    pub fn put_gap(&mut self, i: usize) {
        if 0 < i {
            self.put_letter(' ');
        }
    }

    /// Writes numbers with spaces between them.
    pub fn put_numbers(&mut self, numbers: &[u16]) {
        for i in 0..numbers.len() {
            self.put_gap(i);
            self.put_number(u64::from(numbers[i]));
        }
    }

    /// Writes a text, and numbers behind it.
    pub fn put_with(&mut self, text: &str, numbers: &[u16]) {
        self.put(text);
        for number in numbers {
            self.put_letter(' ');
            self.put_number(u64::from(*number));
        }
    }

    /// Writes a text, and a number behind it.
    pub fn put_one(&mut self, text: &str, number: u64) {
        self.put(text);
        self.put_letter(' ');
        self.put_number(number);
    }

    /// Writes `yes` or `no`.
    pub fn put_flag(&mut self, flag: bool) {
        self.put(if flag { "yes" } else { "no" });
    }
}
