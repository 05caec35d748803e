// A cartridge, and the job of a run.
ghost use Rattle.std.specs.Prelude.{◌<◌, length};

use crate::bytes::Bytes;
use crate::region::Region;
use crate::script::Spans;
use crate::table::Table;

/// How a cartridge's ROM and RAM are mapped into the 24-bit address space.
#[derive(Clone, Copy, Debug, PartialEq, Eq)]
pub enum MapKind {
    /// ROM in pages of 32 KiB, in the upper half of each bank (mode 20).
    LoRom,
    /// ROM in pages of 64 KiB (mode 21).
    HiRom,
}

/// An accepted cartridge.
#[derive(Drop)]
pub struct Cart {
    /// How the ROM and RAM are mapped.
    pub map: MapKind,
    /// The ROM, never empty.
    pub rom: Bytes,
    /// The size of the cartridge's RAM in bytes, 0 if it has none.
    pub ram: u32,
    ghost has_rom: { 0 < length rom },
}

/// All that a run is made from.
#[derive(Drop)]
pub struct Job {
    /// The cartridge.
    pub cart: Cart,
    /// The SPC700's boot ROM, FFC0 to FFFF.
    pub boot: [u8; 64],
    /// The S-DSP's interpolation table.
    pub table: Table,
    /// The controller script.
    pub script: Spans,
    /// How many frames the run has, at most 36,000 in a job that the program makes.
    pub frames: u32,
    /// The television standard of the console.
    pub region: Region,
}
