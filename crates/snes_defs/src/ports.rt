/// One of the two machines that share the four ports 2140 to 2143 (F4 to F7 on the other side).
#[derive(Clone, Copy, Debug, PartialEq, Eq)]
pub enum Side {
    /// The 65C816 with the PPU, the cartridge and the transfers.
    Console,
    /// The SPC700 with the S-DSP.
    Sound,
}

/// What one step of a machine does at the four ports.
#[derive(Clone, Copy, PartialEq, Eq)]
pub enum Act {
    /// No port is touched.
    Quiet,
    /// The incoming byte of this port, 0 to 3, is read.
    Read(u8),
    /// This byte goes out at this port, 0 to 3.
    Write(u8, u8),
    /// The machine's own incoming bytes of this mask are zeroed: bit `p` stands for port `p`, and
    /// the mask is 1 to 15.
    Clear(u8),
}
