/// One cycle of the processor. Addresses have 24 bits: the bank, then the place in it.
#[derive(Clone, Copy, PartialEq, Eq)]
pub enum Access {
    /// A byte of the program is read, at the program bank and the program counter.
    Fetch(u32),
    /// A byte of data, of a pointer, of the stack or of a vector is read.
    Read(u32),
    /// A byte is written.
    Write(u32, u8),
    /// An internal cycle: the bus isn't used.
    Inner,
}
