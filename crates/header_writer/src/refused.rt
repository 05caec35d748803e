/// The rule by which no header is written into a file.
#[derive(Clone, Copy, PartialEq, Eq)]
pub enum HeaderRefused {
    /// Its image has fewer than 32,768 bytes.
    TooShort,
    /// Its image has more than 4,194,304 bytes.
    TooLong,
    /// It has a header: a LoROM or a HiROM map byte is where such a header has it.
    HasHeader,
    /// Its reset vector leads to no ROM of a LoROM cartridge: this byte, at 7FFD of the image, is below 80.
    Reset(u8),
    /// The 32 bytes of the header may be code or data: they are neither all 00 nor all FF.
    InUse,
}
