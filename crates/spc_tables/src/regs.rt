/// The registers that a program sees.
#[derive(Clone, Copy, Debug, PartialEq, Eq)]
pub struct SpcRegs {
    /// A, the accumulator, and the low byte of the word YA.
    pub a: u8,
    /// X, an index register.
    pub x: u8,
    /// Y, an index register, and the high byte of the word YA.
    pub y: u8,
    /// SP, the stack pointer, in page 1.
    pub sp: u8,
    /// PC, the program counter.
    pub pc: u16,
    /// PSW, the status byte: from bit 7 the flags N V P B H I Z C.
    pub psw: u8,
}
