/// The phase of a voice's envelope.
#[derive(Clone, Copy, PartialEq, Eq)]
pub enum Phase {
    Attack,
    Decay,
    Sustain,
    /// After key off, and before a voice is started for the first time.
    Release,
}

/// One of the eight voices.
#[derive(Clone, Copy)]
pub struct Voice {
    /// The phase of the envelope.
    pub phase: Phase,
    /// The envelope, 0 to 7FF.
    pub envelope: u16,
    /// The position between two samples, in parts of 1000 (hexadecimal) to a sample.
    pub position: u16,
    /// The oldest of the last four decoded samples, signed 15 bits each.
    pub oldest: i16,
    /// The second oldest of the four samples.
    pub older: i16,
    /// The second newest of the four samples.
    pub newer: i16,
    /// The newest of the four samples.
    pub newest: i16,
    /// The address of the BRR block that is being decoded.
    pub address: u16,
    /// The next sample of the block, 0 to 15.
    pub place: u8,
    /// The voice's bit of ENDX.
    pub ended: bool,
    /// ENVX, the envelope as the last sample used it.
    pub envx: u8,
    /// OUTX, the high byte of the last sample's output.
    pub outx: u8,
}
