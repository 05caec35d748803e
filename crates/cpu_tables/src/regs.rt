/// The registers that a program sees.
#[derive(Clone, Copy, Debug, PartialEq, Eq)]
pub struct Regs {
    /// A, the accumulator: at 8 bits its high byte stays, and is named B.
    pub a: u16,
    /// X, an index register: its high byte is 0 if indexes have 8 bits.
    pub x: u16,
    /// Y, an index register: its high byte is 0 if indexes have 8 bits.
    pub y: u16,
    /// S, the stack pointer, in bank 0: its high byte is 01 in emulation mode.
    pub s: u16,
    /// D, the direct register: where the direct page begins in bank 0.
    pub d: u16,
    /// PC, the program counter, within its bank.
    pub pc: u16,
    /// The program bank.
    pub pbr: u8,
    /// The data bank.
    pub dbr: u8,
    /// The status byte: from bit 7 the flags N V M X D I Z C.
    pub p: u8,
    /// Whether the processor is in emulation mode, where both widths are 8 bits.
    pub e: bool,
}
