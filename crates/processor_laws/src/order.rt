ghost use Rattle.std.specs.Prelude.{◌≡◌, ◌==◌, ◌%◌, nat_le, false, true};
ghost use Rattle.status_bits.specs.StatusBits.{flag};
ghost use Rattle.cpu_tables.specs.Status.{memory_size};
ghost use Rattle.cpu_alu.specs.Flow.{taken};
ghost use Rattle.cpu_alu.specs.Results.{registers_after};
ghost use Rattle.cpu_alu.specs.Width.{accumulator};

use cpu_tables::{DECIMAL, Mode, Op, Regs};

/// Law of CMP: a later branch on the carry is taken if the operand is at most A. A branch on zero is taken if they are
/// equal.
pub fn comparison_tells_the_order(mode: Mode, regs: Regs, word: u16)
    ensures carry { taken Op.Bcs (registers_after Op.Cmp mode regs word).p
        ≡ nat_le (word % memory_size regs) (accumulator regs) }
    ensures zero { taken Op.Beq (registers_after Op.Cmp mode regs word).p
        ≡ (accumulator regs == word % memory_size regs) }
{}

/// Law of binary ADC and SBC: with no carry in and no borrow in, SBC undoes ADC of the same operand.
pub fn subtraction_takes_back_addition(mode: Mode, regs: Regs, word: u16)
    requires binary { flag regs.p DECIMAL ≡ false }
    ensures { let cleared = registers_after Op.Clc Mode.Implied regs 0 in
        let added = registers_after Op.Adc mode cleared word in
        let set = registers_after Op.Sec Mode.Implied added 0 in
        (registers_after Op.Sbc mode set word).a ≡ regs.a }
{}
