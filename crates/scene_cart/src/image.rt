//! The bytes of the cartridge, and the offsets of its parts: four banks of 32 KiB, one after another.

use std::alloc::{AllocError, Global};

/// The size of the cartridge in bytes.
pub const SIZE: usize = 0x2_0000;

/// The offset of the sound program, in bank 0.
pub const SOUND_PROGRAM: u32 = 0x6000;

/// The offset of tables of 256 bytes, in bank 0, which the program reads by Y.
pub const PATHS: u32 = 0x7000;

/// The offset of the header.
pub const HEADER: u32 = 0x7fc0;
/// The offset of what goes into VRAM.
pub const VIDEO: u32 = 0x8000;

/// The offset of what goes into CGRAM.
pub const COLOURS: u32 = 0x1_8000;

/// The offset of what goes into OAM.
pub const OBJECTS: u32 = 0x1_8200;
/// The offset of the HDMA table of the waves, which is bent in work RAM.
pub const WAVES: u32 = 0x1_8500;

/// The offset of the HDMA table of the sky.
pub const SKY: u32 = 0x1_8600;

/// The offset of the HDMA table of the sun.
pub const SUN: u32 = 0x1_8800;
/// The offset of the numbers with which the program's sums begin.
pub const NUMBERS: u32 = 0x1_8a00;

/// The cartridge while it is being made.
#[derive(Drop)]
pub struct Image {
    bytes: Vec<u8>,
}

impl Image {
    /// Returns an image of zeros.
    pub fn new(alloc: Global) -> Result<Image, AllocError> {
        let bytes = vec![in alloc; 0u8; SIZE]?;
        Ok(Image { bytes })
    }

    /// Returns the bytes of the cartridge.
    pub fn bytes(&self) -> &[u8] {
        self.bytes.as_slice()
    }

    /// Puts bytes from an offset on. Those outside the image are left out.
    pub fn put(&mut self, at: u32, bytes: &[u8]) {
        for (i, byte) in bytes.iter().enumerate() {
            if let Some(place) = self.bytes.get_mut(at as usize + i) {
                *place = *byte;
            }
        }
    }

    /// Puts a word, low byte first.
    pub fn put_word(&mut self, at: u32, word: u16) {
        self.put(at, &word.to_le_bytes());
    }

    /// Sets bits of a byte.
    pub fn set_bits(&mut self, at: u32, bits: u8) {
        if let Some(place) = self.bytes.get_mut(at as usize) {
            *place |= bits;
        }
    }
}
