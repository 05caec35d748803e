/// Bit 0 of PSW, C: the carry; clear after a subtraction that borrowed.
pub const CARRY: u8 = 0x01;
/// Bit 1 of PSW, Z: the result was zero.
pub const ZERO: u8 = 0x02;
/// Bit 2 of PSW, I: interrupts are enabled. The console's sound side has none.
pub const INTERRUPT_ENABLE: u8 = 0x04;
/// Bit 3 of PSW, H: the carry between the two digits of a byte.
pub const HALF_CARRY: u8 = 0x08;
/// Bit 4 of PSW, B: BRK was executed.
pub const BREAK: u8 = 0x10;
/// Bit 5 of PSW, P: the direct page is page 1 if it is set, page 0 if it is clear.
pub const DIRECT_PAGE: u8 = 0x20;
/// Bit 6 of PSW, V: the signed result did not fit.
pub const OVERFLOW: u8 = 0x40;
/// Bit 7 of PSW, N: the top bit of the result was set.
pub const NEGATIVE: u8 = 0x80;
