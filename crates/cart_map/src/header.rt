use snes_defs::MapKind;

/// The contents of a cartridge's header that the map needs.
#[derive(Clone, Copy)]
pub struct Header {
    /// LoROM or HiROM.
    pub map: MapKind,
    /// The size of the cartridge's RAM in bytes.
    pub ram: u32,
}
