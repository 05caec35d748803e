//! The bytes of a file that is being made, and random numbers.

ghost use Rattle.std.specs.Prelude.{◌≡◌, ◌<◌, ◌≤◌};

use case_text::Generator;
use std::alloc::Global;

/// Returns a random number below a limit.
pub fn below(generator: &mut Generator, limit: u8) -> u8
    requires { 0 < limit }
    ensures { result < limit }
{
    (generator.next() / 65_536 % limit as u32) as u8
}

/// A growing list of bytes.
#[derive(Drop)]
pub struct Bytes {
    bytes: Vec<u8>,
}

impl Bytes {
    /// Returns no bytes.
    pub fn new(alloc: Global) -> Bytes {
        Bytes {
            bytes: Vec::new(alloc),
        }
    }

    /// Returns the bytes.
    pub fn get(&self) -> &[u8] {
        self.bytes.as_slice()
    }

    /// Returns the number of bytes.
    pub fn len(&self) -> usize {
        self.bytes.len()
    }

    /// Adds bytes.
    pub fn add(&mut self, more: &[u8]) -> Option<()> {
        self.bytes.extend_from_slice(more).ok()
    }

    /// Adds a number of two bytes, low byte first.
    pub fn add_word(&mut self, word: u16) -> Option<()> {
        self.add(&word.to_le_bytes())
    }

    /// Overwrites the byte at an index.
    pub fn put(&mut self, at: usize, byte: u8) -> Option<()> {
        *self.bytes.get_mut(at)? = byte;
        Some(())
    }
}
