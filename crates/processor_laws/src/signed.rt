ghost use Rattle.std.specs.Prelude.{◌≡◌, ◌≢◌, ◌%◌, ◌-◌, ◌+ℤ◌, ◌-ℤ◌, pos, false, true};
ghost use Rattle.status_bits.specs.StatusBits.{flag};
ghost use Rattle.cpu_tables.specs.Status.{memory_size};
ghost use Rattle.cpu_alu.specs.Results.{registers_after};
ghost use Rattle.cpu_alu.specs.Width.{bit_of};
ghost use Rattle.processor_laws.specs.Signed.{signed};

use cpu_tables::{CARRY, DECIMAL, Mode, OVERFLOW, Op, Regs};

/// Law of V after binary ADC: it is clear exactly when signed A is the sum of the signed numbers and the carry.
pub fn overflow_tells_of_the_signed_sum(mode: Mode, regs: Regs, word: u16)
    requires binary { flag regs.p DECIMAL ≡ false }
    ensures right { let size = memory_size regs in
        let after = registers_after Op.Adc mode regs word in
        flag after.p OVERFLOW ≡ false → signed size (after.a % size)
        ≡ (signed size (regs.a % size) +ℤ signed size (word % size) +ℤ pos (bit_of (flag regs.p CARRY))) }
    ensures wrong { let size = memory_size regs in
        let after = registers_after Op.Adc mode regs word in
        flag after.p OVERFLOW ≡ true → signed size (after.a % size)
        ≢ (signed size (regs.a % size) +ℤ signed size (word % size) +ℤ pos (bit_of (flag regs.p CARRY))) }
{}

/// Law of V after binary SBC: it is clear exactly when signed A is the difference of the signed numbers. One more is
/// subtracted if the carry was clear.
pub fn overflow_tells_of_the_signed_difference(mode: Mode, regs: Regs, word: u16)
    requires binary { flag regs.p DECIMAL ≡ false }
    ensures right { let size = memory_size regs in
        let after = registers_after Op.Sbc mode regs word in
        flag after.p OVERFLOW ≡ false → signed size (after.a % size)
        ≡ (signed size (regs.a % size) -ℤ signed size (word % size) -ℤ pos (1 - bit_of (flag regs.p CARRY))) }
    ensures wrong { let size = memory_size regs in
        let after = registers_after Op.Sbc mode regs word in
        flag after.p OVERFLOW ≡ true → signed size (after.a % size)
        ≢ (signed size (regs.a % size) -ℤ signed size (word % size) -ℤ pos (1 - bit_of (flag regs.p CARRY))) }
{}
