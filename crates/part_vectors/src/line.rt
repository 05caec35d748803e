//! The words of a line, read one after another.

use case_text::hexadecimal;
use std::str::{FromStr, SplitWhitespace};

/// The words of a line that are not read yet.
#[derive(Drop)]
pub struct Line<'a> {
    words: SplitWhitespace<'a>,
}

impl<'a> Line<'a> {
    /// Returns the words of a line, none of them read.
    pub fn new(line: &'a str) -> Line<'a> {
        Line {
            words: line.split_whitespace(),
        }
    }

    /// Reads the next word.
    pub fn word(&mut self) -> Option<&'a str> {
        self.words.next()
    }

    /// Returns the words that are left.
    pub fn rest(self) -> SplitWhitespace<'a> {
        self.words
    }

    /// Reads the number of the next word, in decimal digits.
    pub fn decimal<T: FromStr + Drop>(&mut self) -> Option<T>
    where
        T::Err: Drop,
    {
        self.word()?.parse().ok()
    }

    /// Reads the number of the next word, in hexadecimal digits.
    pub fn hexadecimal<T: TryFrom<u64> + Drop>(&mut self) -> Option<T>
    where
        T::Error: Drop,
    {
        hexadecimal(self.word()?)
    }

    /// Reads the next word as a number, and returns whether it is 1.
    pub fn bit(&mut self) -> Option<bool> {
        Some(self.decimal::<u8>()? == 1)
    }
}
