//! A line of the trace while it is written.
//!
//! A line keeps in mind whether memory ran out, and says so where its bytes are taken. So whoever writes a line adds all
//! that it has, and nobody looks at each part.

use crate::digits::{push_hex2, push_hex4, push_hex6, push_number, push_spaces, push_text};
use std::alloc::{AllocError, Global};

/// The bytes that a line has room for at first.
const ROOM: usize = 256;

/// A line while it is written.
#[derive(Drop)]
pub struct Line {
    bytes: Vec<u8>,
    /// Whether memory ran out.
    lacks_memory: bool,
}

impl Line {
    /// Returns an empty line.
    pub fn new(alloc: Global) -> Result<Line, AllocError> {
        Ok(Line {
            bytes: Vec::with_capacity(alloc, ROOM)?,
            lacks_memory: false,
        })
    }

    /// Empties the line.
    pub fn clear(&mut self) {
        self.bytes.clear();
        self.lacks_memory = false;
    }

    /// How many bytes the line has.
    pub fn len(&self) -> usize {
        self.bytes.len()
    }

    /// Takes all bytes from this one on off the line.
    pub fn truncate(&mut self, count: usize) {
        self.bytes.truncate(count);
    }

    /// Notes whether there was room for what was added.
    fn note(&mut self, added: Result<(), AllocError>) {
        if added.is_err() {
            self.lacks_memory = true;
        }
    }

    /// Adds bytes.
    pub fn add(&mut self, bytes: &[u8]) {
        let added = self.bytes.extend_from_slice(bytes);
        self.note(added);
    }

    /// Adds a text.
    pub fn text(&mut self, text: &str) {
        let added = push_text(&mut self.bytes, text);
        self.note(added);
    }

    /// Adds spaces, at most 40.
    pub fn spaces(&mut self, count: usize) {
        let added = push_spaces(&mut self.bytes, count);
        self.note(added);
    }

    /// Adds a decimal number, padded with spaces on the left up to a width.
    pub fn number(&mut self, number: u64, width: usize) {
        let added = push_number(&mut self.bytes, number, width);
        self.note(added);
    }

    /// Adds the two hexadecimal digits of a byte.
    pub fn hex2(&mut self, byte: u8) {
        let added = push_hex2(&mut self.bytes, byte);
        self.note(added);
    }

    /// Adds the four hexadecimal digits of a word.
    pub fn hex4(&mut self, word: u16) {
        let added = push_hex4(&mut self.bytes, word);
        self.note(added);
    }

    /// Adds the six hexadecimal digits of an address.
    pub fn hex6(&mut self, address: u32) {
        let added = push_hex6(&mut self.bytes, address);
        self.note(added);
    }

    /// Returns the bytes of the line, unless memory ran out.
    pub fn bytes(&self) -> Result<&[u8], AllocError> {
        if self.lacks_memory {
            Err(AllocError)
        } else {
            Ok(self.bytes.as_slice())
        }
    }
}
