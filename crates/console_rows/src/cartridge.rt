//! Builds the cartridge and the script of a row.

use cart_map::accept;
use case_text::{hexadecimal, part, put};
use input_files::read_script;
use snes_defs::{Cart, Job, Table};
use std::alloc::Global;
use std::str::SplitWhitespace;

/// The bytes of a cartridge.
const SIZE: usize = 32_768;

/// A cartridge that is being built, and the lines of a script.
#[derive(Drop)]
pub struct Cartridge {
    image: Vec<u8>,
    /// The offset at which the program is continued.
    end: usize,
    script: Vec<u8>,
}

/// Reads a word `BYTES` or `N*BYTES`: a count, and the bytes that are repeated.
fn counted(word: &str) -> Option<(usize, &str)> {
    match word.split_once("*") {
        Some((count, digits)) => Some((count.parse().ok()?, digits)),
        None => Some((1, word)),
    }
}

impl Cartridge {
    /// Returns a cartridge without bytes, and an empty script.
    pub fn new(alloc: Global) -> Cartridge {
        Cartridge {
            image: Vec::new(alloc),
            end: 0,
            script: Vec::new(alloc),
        }
    }

    /// Begins an empty cartridge of LoROM with the RESET vector 8000.
    pub fn begin(&mut self, alloc: Global) -> Option<()> {
        self.image = vec![in alloc; 0u8; SIZE].ok()?;
        self.end = 0;
        self.script = Vec::new(alloc);
        put(self.image.as_mut_slice(), 0x7fd5, "20")?;
        put(self.image.as_mut_slice(), 0x7ffc, "0080")
    }

    /// Returns a copy of the cartridge and the script.
    pub fn copied(&self, alloc: Global) -> Option<Cartridge> {
        Some(Cartridge {
            image: self.image.as_slice().to_vec(alloc).ok()?,
            end: self.end,
            script: self.script.as_slice().to_vec(alloc).ok()?,
        })
    }

    /// Puts words at an offset, and returns the offset of their end.
    fn put_words(&mut self, offset: usize, words: SplitWhitespace<'_>) -> Option<usize> {
        let mut at = offset;
        for word in words {
            let (count, digits) = counted(word)?;
            for _ in 0..count {
                put(self.image.as_mut_slice(), at, digits)?;
                at = at.checked_add(digits.len() / 2)?;
            }
        }
        Some(at)
    }

    /// Follows `code WORDS`: adds bytes to the program.
    pub fn code(&mut self, words: SplitWhitespace<'_>) -> Option<()> {
        self.end = self.put_words(self.end, words)?;
        Some(())
    }

    /// Follows `put OFFSET WORDS`: puts bytes into the cartridge.
    pub fn put(&mut self, mut words: SplitWhitespace<'_>) -> Option<()> {
        let offset = hexadecimal(words.next()?)?;
        let _end = self.put_words(offset, words)?;
        Some(())
    }

    /// Adds bytes to the program.
    fn add(&mut self, bytes: &[u8]) -> Option<()> {
        for byte in bytes {
            *self.image.get_mut(self.end)? = *byte;
            self.end = self.end.checked_add(1)?;
        }
        Some(())
    }

    /// Follows `set AAAAVV ..`: adds a load and a store for each.
    pub fn set(&mut self, words: SplitWhitespace<'_>) -> Option<()> {
        for word in words {
            let high = part::<u8>(word, 0, 2)?;
            let low = part::<u8>(word, 2, 4)?;
            let v = part::<u8>(word, 4, 6)?;
            self.add(&[0xa9, v, 0x8d, low, high])?;
        }
        Some(())
    }

    /// Follows `line VV`: adds a wait for a line.
    pub fn wait(&mut self, mut words: SplitWhitespace<'_>) -> Option<()> {
        let v = hexadecimal::<u8>(words.next()?)?;
        self.add(&[0xad, 0x3f, 0x21, 0xad, 0x37, 0x21, 0xad, 0x3d, 0x21])?;
        self.add(&[0xc9, v, 0xd0, 0xf3])
    }

    /// Follows `script TEXT`: adds a line to the script.
    pub fn script(&mut self, text: &str) -> Option<()> {
        self.script.extend_from_slice(text.as_bytes()).ok()?;
        self.script.push(b'\n').ok()
    }

    /// Returns the cartridge as a console takes it.
    fn accepted(&self, alloc: Global) -> Option<Cart> {
        accept(self.image.as_slice().to_vec(alloc).ok()?).ok()
    }

    /// Returns the job of the cartridge and the script.
    pub fn job(&self, alloc: Global) -> Option<Job> {
        let cart = self.accepted(alloc)?;
        let script = read_script(alloc, self.script.as_slice()).ok()?;
        let region = script.region();
        Some(Job {
            cart,
            boot: [0xef; 64],
            table: Table::of([0; 512]),
            script,
            frames: 2,
            region,
        })
    }
}
