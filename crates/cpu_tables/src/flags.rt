/// Bit 0 of the status byte: the carry, clear after a subtraction that borrowed.
pub const CARRY: u8 = 0x01;
/// Bit 1 of the status byte: set if the result was zero.
pub const ZERO: u8 = 0x02;
/// Bit 2 of the status byte: if set, interrupt requests are not taken.
pub const IRQ_DISABLE: u8 = 0x04;
/// Bit 3 of the status byte: if set, ADC and SBC count in decimal digits.
pub const DECIMAL: u8 = 0x08;
/// Bit 4 of the status byte: if set, the index registers have 8 bits.
pub const INDEX_8: u8 = 0x10;
/// Bit 5 of the status byte: if set, A and memory operands have 8 bits.
pub const MEMORY_8: u8 = 0x20;
/// Bit 6 of the status byte: set if the signed result did not fit.
pub const OVERFLOW: u8 = 0x40;
/// Bit 7 of the status byte: the top bit of the result.
pub const NEGATIVE: u8 = 0x80;
