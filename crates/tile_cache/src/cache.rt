//! The decoded tiles as one value, in step with VRAM.
ghost use Rattle.std.specs.Prelude.{◌≡◌, ◌≢◌, ℕ, ◌⊎◌, ◌+◌, ◌*◌, ◌/◌, ◌%◌, ◌<◌, ◌≤◌, ◌^◌, ◌==◌, List, length, slice_index, slice_set, All, IfOk, IsTrue, ◌||◌, ◌-◌, if◌then◌else◌};
ghost use Rattle.ppu_regs.specs.Picture.{zeros, vram_words};
ghost use Rattle.ppu_regs.specs.Writes.{after_write, word_written};
ghost use Rattle.tile_cache.specs.Bitplanes.{value_of, packed, IsInStepAt, IsInStep, eight};

use crate::eights::{bytes_of, pixels_of};
use ppu_regs::Ppu;
use snes_defs::NoMemory;
use std::alloc::Global;
use std::marker::Model;

mod copy;

/// The number of words in VRAM.
const WORDS: usize = 32_768;

/// The decoded pixels of VRAM: for each word eight numbers of two bits, as the bytes of one number.
#[derive(Drop)]
pub struct TileCache {
    eights: Vec<u64>,
}

impl Model for TileCache {
    ghost use Rattle.std.specs.Prelude.{◌≡◌, ℕ, ◌≤◌, List, length, slice_index};

    ghost Value = { List ℕ };

    ghost view = { λ t. t.eights.items };

    ghost invariant = { λ t. (length t.eights.items ≡ 32768) × ((k : ℕ) → slice_index t.eights.items k ≤ 0x303030303030303) };
}

impl TileCache {
    /// Makes the cache of a VRAM of zeros, as a new PPU has it. Fails only if allocation fails.
    #[tactic(auto, using(crate::proofs::Steps::zeros_in_step, crate::proofs::Steps::small_zeros))]
    pub fn new(alloc: Global) -> Result<TileCache, NoMemory>
        ensures start { IfOk result (λ t. IsInStep t (zeros vram_words)) }
    {
        let eights = zeroed(alloc, WORDS)?;
        Ok(TileCache { eights })
    }

    /// Decodes a word of VRAM again after it was written.
    #[inline(always)]
    pub fn wrote(&mut self, p: &Ppu, word: u16)
        requires word { word < 32768 }
        ensures step { IsInStepAt self.new p.now.vram word }
        ensures others { (w : ℕ) → w ≢ word → slice_index self.new w ≡ slice_index self.old w }
    {
        let pixels = pixels_of(p.vram()[word as usize]);
        self.eights[word as usize] = pixels;
    }

    /// Returns what the cache has of one word.
    #[inline(always)]
    fn eight(&self, word: usize) -> u64
        requires word { word < 32768 }
        ensures value { result ≡ slice_index self.now word }
        ensures small { result ≤ 0x303030303030303 }
    {
        self.eights[word]
    }

    /// Returns the pixels of a line of 4 bits.
    #[inline(always)]
    fn eight_of_four(&self, word: usize) -> u64
        requires word { word < 32768 }
        ensures { result ≡ slice_index self.now word + 4 * slice_index self.now ((word + 8) % 32768) }
    {
        self.eight(word) + 4 * self.eight((word + 8) % WORDS)
    }

    /// Returns the pixels of a line of 8 bits.
    #[inline(always)]
    fn eight_of_eight(&self, word: usize) -> u64
        requires word { word < 32768 }
        ensures { result ≡ slice_index self.now word + 4 * slice_index self.now ((word + 8) % 32768)
            + 16 * slice_index self.now ((word + 16) % 32768) + 64 * slice_index self.now ((word + 24) % 32768) }
    {
        self.eight(word)
            + 4 * self.eight((word + 8) % WORDS)
            + 16 * self.eight((word + 16) % WORDS)
            + 64 * self.eight((word + 24) % WORDS)
    }

    /// Returns the pixels of a line of 2, 4 or 8 bits.
    #[inline(always)]
    #[tactic(auto, using(crate::proofs::Steps::lines))]
    fn pixels(&self, word: usize, depth: u8) -> u64
        requires word { word < 32768 }
        requires depth { IsTrue ((depth == 2) || (depth == 4) || (depth == 8)) }
        ensures { (vram : List ℕ) → IsInStep self.now vram → result ≡ packed (value_of vram word depth) }
    {
        match depth {
            2 => self.eight(word),
            4 => self.eight_of_four(word),
            _ => self.eight_of_eight(word),
        }
    }

    /// Returns the eight pixels, left to right, of the line that begins at a word, at a depth of 2, 4 or 8 bits.
    /// If `flip`, they are mirrored.
    #[inline(always)]
    pub fn turned_line(&self, word: usize, depth: u8, flip: bool) -> [u8; 8]
        requires word { word < 32768 }
        requires depth { IsTrue ((depth == 2) || (depth == 4) || (depth == 8)) }
        ensures { (vram : List ℕ) → IsInStep self.now vram → result ≡ eight (λ k. value_of vram word depth (if flip then 7 - k else k)) }
    {
        bytes_of(self.pixels(word, depth), flip)
    }

    /// Returns the eight pixels, left to right, of the line that begins at a word, at a depth of 2, 4 or 8 bits.
    /// They are not mirrored.
    #[inline(always)]
    pub fn line(&self, word: u16, depth: u8) -> [u8; 8]
        requires word { word < 32768 }
        requires depth { IsTrue ((depth == 2) || (depth == 4) || (depth == 8)) }
        ensures { (vram : List ℕ) → IsInStep self.now vram → result ≡ eight (λ k. value_of vram word depth k) }
    {
        self.turned_line(word as usize, depth, false)
    }
}

/// Writes a byte to the PPU's register 2100 plus `reg`, and keeps the cache in step. Returns the word of VRAM
/// that was written, if `reg` is 2118 or 2119.
#[inline(always)]
pub fn write(p: &mut Ppu, tiles: &mut TileCache, reg: u8, v: u8) -> Option<u16>
    requires reg { reg < 0x40 }
    requires step { IsInStep tiles.old p.old.vram }
    ensures word { result ≡ word_written p.old reg }
    ensures after { p.new ≡ after_write p.old reg v }
    ensures step { IsInStep tiles.new p.new.vram }
{
    match p.write(reg, v) {
        Some(word) => {
            tiles.wrote(p, word);
            Some(word)
        }
        None => None,
    }
}

fn zeroed(alloc: Global, size: usize) -> Result<Vec<u64>, NoMemory>
    ensures size { IfOk result (λ eights. length eights.items ≡ size) }
    ensures zeros { IfOk result (λ eights. All (λ v. v ≡ 0) eights.items) }
{
    match vec![in alloc; 0u64; size] {
        Ok(eights) => Ok(eights),
        Err(_) => Err(NoMemory),
    }
}
