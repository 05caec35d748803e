/// What is heard of a sound file.
#[derive(Clone, Copy)]
pub struct Heard {
    /// The parts that are heard: bits 0 to 7 are voices 0 to 7, bit 8 is the echo. The other bits mean nothing.
    pub stem: u16,
    /// How many samples at the end fade out, 0 for none.
    pub fade: u32,
}
