use snes_defs::MapKind;

/// A cartridge's map, and the sizes of its memories.
#[derive(Clone, Copy)]
pub struct CartBoard {
    /// LoROM or HiROM.
    pub map: MapKind,
    /// The bytes of ROM.
    pub rom: usize,
    /// The bytes of RAM.
    pub ram: u32,
}
