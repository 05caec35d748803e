ghost use Rattle.std.specs.Prelude.{◌≡◌, ◌+◌, ◌*◌, ◌^◌, true};
ghost use Rattle.status_bits.specs.StatusBits.{flag};
ghost use Rattle.cpu_alu.specs.Results.{registers_after};
ghost use Rattle.cpu_alu.specs.Width.{bit_of};
ghost use Rattle.processor_laws.specs.Numbers.{IsDecimal, digit_count, number};

use cpu_tables::{CARRY, DECIMAL, Mode, Op, Regs};

/// Law of decimal ADC: of valid digits it gives the digits of the sum. These are two at 8 bits and four at 16, with the
/// carry as the next digit.
pub fn decimal_addition(mode: Mode, regs: Regs, word: u16)
    requires decimal { flag regs.p DECIMAL ≡ true }
    requires digits_of_a { IsDecimal (digit_count regs) regs.a }
    requires digits_of_operand { IsDecimal (digit_count regs) word }
    ensures digits { IsDecimal (digit_count regs) (registers_after Op.Adc mode regs word).a }
    ensures sum { let n = digit_count regs in
        let after = registers_after Op.Adc mode regs word in
        number n after.a + 10 ^ n * bit_of (flag after.p CARRY)
        ≡ number n regs.a + number n word + bit_of (flag regs.p CARRY) }
{}

/// Law of decimal SBC: of valid digits it gives the digits of the difference. A clear carry is a borrow. If it was
/// clear before, one more is subtracted; if it is clear after, the difference is 100 or 10000 too large.
pub fn decimal_subtraction(mode: Mode, regs: Regs, word: u16)
    requires decimal { flag regs.p DECIMAL ≡ true }
    requires digits_of_a { IsDecimal (digit_count regs) regs.a }
    requires digits_of_operand { IsDecimal (digit_count regs) word }
    ensures digits { IsDecimal (digit_count regs) (registers_after Op.Sbc mode regs word).a }
    ensures difference { let n = digit_count regs in
        let after = registers_after Op.Sbc mode regs word in
        number n after.a + number n word + 1 + 10 ^ n * bit_of (flag after.p CARRY)
        ≡ number n regs.a + bit_of (flag regs.p CARRY) + 10 ^ n }
{}
