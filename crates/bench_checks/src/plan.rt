//! What a bench file asks for: its cases, and what each expects.

use crate::sums::Sum;
use lint_rules::Rule;
use snes_defs::{Profile, Region};

/// A memory whose bytes can be expected.
#[derive(Clone, Copy)]
pub enum Memory {
    /// Work RAM.
    Wram,
    /// The cartridge's RAM.
    Sram,
    /// The memory of the PPU for tiles and maps.
    Vram,
    /// The memory of the PPU for colours.
    Cgram,
    /// The memory of the PPU for objects.
    Oam,
    /// The sound RAM.
    Aram,
    /// The 65C816's address space, as far as it is memory.
    Bus,
}

/// An address, or an offset in a memory.
#[derive(Drop)]
pub enum Address {
    /// Its number.
    At(u32),
    /// A label of the symbol file, and how many bytes behind it.
    Label(String, u32),
}

/// What a memory check expects.
#[derive(Drop)]
pub enum Expected {
    /// A number of one byte, from the least to the most.
    Byte(u32, u32),
    /// A number of two bytes, from the least to the most.
    Word(u32, u32),
    /// These bytes.
    Bytes(Vec<u8>),
}

/// What is expected of a frame.
#[derive(Drop)]
pub struct FrameCheck {
    /// The frame.
    pub at: u32,
    /// The sum of its picture.
    pub picture: Option<Sum>,
    /// The sum of its samples.
    pub sound: Option<Sum>,
    /// The PNG file of its picture.
    pub png: Option<String>,
}

/// What is expected of bytes at the end of a frame.
#[derive(Drop)]
pub struct MemoryCheck {
    /// The frame.
    pub at: u32,
    /// The memory.
    pub memory: Memory,
    /// The first byte.
    pub place: Address,
    /// What is there.
    pub expected: Expected,
}

/// An instruction that has to begin in time.
#[derive(Drop)]
pub struct Reach {
    /// Its address.
    pub address: Address,
    /// In how many frames.
    pub within: u32,
}

/// What may be broken in a run that is to have no warnings of `lint`.
#[derive(Drop)]
pub struct NoWarnings {
    /// The rules that may be broken everywhere.
    pub allow: Vec<Rule>,
    /// The file of rules that may be broken, and where.
    pub allowed: Option<String>,
}

/// A case: a cartridge, how it is run, and what is expected.
#[derive(Drop)]
pub struct Case {
    /// What reports call it.
    pub name: String,
    /// The file of the cartridge.
    pub cart: String,
    /// The file of the boot ROM, if it is not the free one.
    pub boot: Option<String>,
    /// The file of the interpolation table, if it is not the free one.
    pub table: Option<String>,
    /// The file of the script.
    pub script: Option<String>,
    /// The region.
    pub region: Option<Region>,
    /// The profile.
    pub profile: Option<Profile>,
    /// How many frames are run.
    pub frames: u32,
    /// The file of the labels.
    pub symbols: Option<String>,
    /// The file of the golden sums.
    pub sums: Option<String>,
    /// The file of the golden pictures.
    pub film: Option<String>,
    /// What may be broken, if the run is to have no warnings of `lint`.
    pub no_warnings: Option<NoWarnings>,
    /// Whether anything is heard.
    pub is_heard: Option<bool>,
    /// Why the cartridge is refused.
    pub refused: Option<String>,
    /// What is expected of frames.
    pub frame_checks: Vec<FrameCheck>,
    /// What is expected of memories.
    pub memory_checks: Vec<MemoryCheck>,
    /// Which instructions are to begin.
    pub reaches: Vec<Reach>,
}
