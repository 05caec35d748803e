/// The way of one byte that a channel moves. Addresses have 24 bits; a port is the low byte of 21xx.
#[derive(Clone, Copy, PartialEq, Eq)]
pub enum Move {
    /// From the A side to a B register.
    ToB { from: u32, port: u8 },
    /// From a B register to the A side.
    ToA { port: u8, to: u32 },
    /// From an HDMA table to the channel itself.
    Load { from: u32 },
}
