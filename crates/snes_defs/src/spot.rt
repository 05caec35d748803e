/// The position of the picture's beam.
#[derive(Clone, Copy)]
pub struct Spot {
    /// The line clock: master clocks since the line began, 0 to 1,363.
    pub h: u16,
    /// The line, 0 to 261 in Ntsc and 0 to 311 in Pal.
    pub v: u16,
    /// Whether vertical blank has begun in this frame.
    pub blank: bool,
}

/// When the console's timer asks for an interrupt (4200 bits 5-4, 4207 to 420A).
#[derive(Clone, Copy, PartialEq, Eq)]
pub struct IrqTime {
    /// The kind: 0 never, 1 on every line at `h`, 2 at the start of line `v`, 3 on line `v` at `h`.
    pub kind: u8,
    /// HTIME, 0 to 511, in units of four master clocks; above 340 it never comes.
    pub h: u16,
    /// VTIME, 0 to 511, a line.
    pub v: u16,
}
