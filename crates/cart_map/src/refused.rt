/// The rule by which a file is refused as a cartridge of this console.
#[derive(Clone, Copy, Debug, PartialEq, Eq)]
pub enum CartRefused {
    /// Its image has fewer than 32,768 bytes.
    TooShort,
    /// Its image has more than 4,194,304 bytes.
    TooLong,
    /// It has neither a LoROM nor a HiROM header.
    NoHeader,
    /// Its header names a chip other than ROM, RAM and battery: this chip byte, above 02.
    Coprocessor(u8),
    /// Its header asks for more than 128 KiB of RAM: this size byte, above 7.
    RamSize(u8),
}

/// The cause for which a file wasn't accepted.
#[derive(Clone, Copy)]
pub enum CartEnd {
    /// The file isn't a cartridge of this console, by this rule.
    Refused(CartRefused),
    /// Allocation failed while its ROM was filled to whole pages of 32 KiB.
    NoMemory,
}
