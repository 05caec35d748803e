/// One cycle of the processor. Addresses have 16 bits.
#[derive(Clone, Copy, Debug, PartialEq, Eq)]
pub enum SpcAccess {
    /// The fetch of a byte of the program, at the program counter.
    Fetch(u16),
    /// The read of a byte of data, of a pointer, of the stack or of a vector.
    Read(u16),
    /// The write of a byte.
    Write(u16, u8),
    /// An internal cycle, which doesn't use memory. Reads whose byte is dropped count as such.
    Inner,
}
