/// What a voice takes from the registers in one sample.
#[derive(Clone, Copy)]
pub struct Setting {
    /// VOL (L): the volume on the left, signed.
    pub left: i8,
    /// VOL (R): the volume on the right, signed.
    pub right: i8,
    /// The pitch, 14 bits: how far a voice moves in each sample, in parts of 1000 (hexadecimal) of a decoded sample.
    pub pitch: u16,
    /// The source's entry in the directory: two addresses, of its first block and of its loop.
    pub entry: u16,
    /// ADSR1: bit 7 chooses ADSR over GAIN, bits 6-4 are the decay rate, bits 3-0 the attack rate.
    pub adsr1: u8,
    /// ADSR2: bits 7-5 are the sustain level, bits 4-0 the sustain rate.
    pub adsr2: u8,
    /// GAIN, which moves the envelope instead of ADSR.
    pub gain: u8,
    /// Whether the output of the voice before moves the pitch.
    pub modulated: bool,
    /// Whether the voice sounds noise instead of its samples.
    pub noisy: bool,
    /// Whether the voice goes into the echo too.
    pub echoed: bool,
}
