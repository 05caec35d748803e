/// A place on the bus: the byte of a memory or the register that an address names, or nothing.
#[derive(Clone, Copy)]
pub enum Place {
    /// This byte of the 128 KiB of work RAM.
    Wram(u32),
    /// This byte of the cartridge's ROM.
    Rom(u32),
    /// This byte of the cartridge's RAM.
    Ram(u32),
    /// A register of the B bus: 2100 plus this.
    BBus(u8),
    /// A register of the CPU's chip: 4016, 4017, 4200 to 421F or 4300 to 437F.
    Cpu(u16),
    /// Nothing: a read gives the byte last on the data bus, a write does nothing.
    Open,
}
